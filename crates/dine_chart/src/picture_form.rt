//! A picture in the form that is asked for.

ghost use Rattle.std.specs.Prelude.{◌≡◌, ◌++◌, OnErr, OnOk};
ghost use mathlib.Core.List.{IsPrefix};
ghost use Rattle.dine_chart.specs.Forms.{picture_text};
ghost use Rattle.dine_chart.specs.Picture.{HasFewLanes};

use crate::picture::Picture;
use dine_lines::Form;
use std::alloc::AllocError;

impl Picture {
    /// Appends the picture as what is asked for. On `Err`, which is want of memory, a part may have been appended, behind
    /// what stood there before.
    pub fn write(&self, form: Form, out: &mut Vec<u8>) -> Result<(), AllocError>
        requires { HasFewLanes self.now }
        ensures ok { OnOk result (out.new.items ≡ out.old.items ++ picture_text form self.now) }
        ensures err { OnErr result (IsPrefix out.old.items out.new.items) }
    {
        match form {
            Form::Svg => self.write_svg(out),
            Form::Page => self.write_page(out),
        }
    }
}
