//! What a picture is written as.

/// What a picture is written as.
#[derive(Clone, Copy, Debug, PartialEq, Eq, Hash)]
pub enum Form {
    /// An SVG.
    Svg,
    /// A page with the SVG, which can be moved there, and a table.
    Page,
}
