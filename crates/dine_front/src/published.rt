//! The whole history as it was seen under the lock, and the panel that shows it to those who look.

ghost use Rattle.std.specs.Prelude.{◌≡◌, ◌++◌, ◌∷◌, ◌<◌, [], IfOk, IfSome, OnErr, OnOk, drop};
ghost use mathlib.Core.List.{IsPrefix};
ghost use Rattle.dine_table.specs.Calls.{reply_of};
ghost use Rattle.dine_table.specs.History.{IsLegal, table_after};
ghost use Rattle.dine_front.specs.Published.{counter_of};

use crate::counted::{Counter, SharedCounter};
use crate::lookout::Lookout;
use crate::naming::Naming;
use crate::opening::opened_panel;
use crate::panel::Panel;
use crate::shown::{Event, Shown};
use crate::sight::Sight;
use dine_journal::Change;
use dine_words::{Entry, Limits};
use left_right::Absorb;
use std::alloc::{AllocError, Global};
use std::marker::Model;
use std::sync::Wait;

/// The book of a front, all of which was seen, and the panel that shows it, if passes look. Contracts see it as the entries.
pub(crate) struct Published<J: Naming>
where
    Shown<J>: Absorb<Event<J>, State = [Entry; 0]>,
{
    counter: SharedCounter,
    sight: Sight<J>,
    panel: Option<Panel<Shown<J>, Event<J>>>,
}

impl<J: Naming> Model for Published<J>
where
    Shown<J>: Absorb<Event<J>, State = [Entry; 0]>,
{
    ghost use Rattle.std.specs.Prelude.{◌≡◌, List, [], IfSome, drop};
    ghost use Rattle.dine_words.specs.declared.entry.Entry.{Entry};
    ghost use Rattle.dine_front.specs.Published.{counter_of};

    ghost Value = { List Entry };

    ghost view = { λ published. published.sight };

    // What the panel shows is all that was seen, and nothing waits to be shown.
    ghost invariant = { λ published. (published.counter ≡ counter_of J.book)
        × IfSome published.panel (λ panel. (panel.writer.desk.shown.value ≡ published.sight)
        × (drop panel.writer.behind panel.writer.log.items ≡ [])) };
}

impl<J: Naming> Published<J> {
    /// A book in which nothing is written. Where passes look, a panel shows it, with places for so many. An error is want of
    /// memory.
    pub(crate) fn new<R: Wait>(
        rt: &R,
        alloc: Global,
        limits: Limits,
        counter: Counter,
        sight: Sight<J>,
        places: Option<u32>,
    ) -> Result<Self, AllocError>
        requires limits { limits ≡ J.limits }
        requires counter { counter ≡ counter_of J.book }
        requires new { sight ≡ [] }
        requires some { IfSome places (λ n. 0 < n) }
        ensures { IfOk result (λ published. published ≡ []) }
    {
        let counter = SharedCounter::new(alloc, counter)?;
        let panel = panel_for(rt, alloc, limits, &sight, places)?;
        Ok(Published {
            counter,
            sight,
            panel,
        })
    }

    /// All that was written.
    pub(crate) fn sight(&self) -> Sight<J>
        ensures { result ≡ self.now }
    {
        self.sight.again()
    }

    /// Writes the entry of a pass that has seen this much into the book, and shows it to those who look. All that is written
    /// then comes back. An error, which never comes, leaves all as it was.
    #[inline(always)]
    pub(crate) fn write<R: Wait>(
        &mut self,
        rt: &R,
        mine: &Sight<J>,
        entry: Entry,
    ) -> Result<Sight<J>, AllocError>
        requires { entry.reply ≡ reply_of (table_after J.limits self.old) entry.call }
        ensures written { OnOk result (self.new ≡ self.old ++ entry ∷ []) }
        ensures seen { IfOk result (λ sight. sight ≡ self.new) }
        ensures legal { OnOk result (IsLegal J.limits self.new) }
        ensures begins { IfOk result (λ sight. IsPrefix mine.now sight) }
        ensures err { OnErr result (self.new ≡ self.old) }
    {
        let Published {
            counter,
            sight,
            panel,
        } = self;
        let Some(longer) = sight.extended(mine, counter.word(), entry) else {
            return Err(AllocError);
        };
        if let Some(panel) = panel {
            show_entry(rt, panel, entry, &longer)?;
        }
        *sight = longer.again();
        Ok(longer)
    }

    /// A place to look from, if passes look. An error is want of such a place.
    pub(crate) fn lookout(&self) -> Result<Option<Lookout<J>>, AllocError> {
        let Some(panel) = &self.panel else {
            return Ok(None);
        };
        let counter = self.counter.again()?;
        Ok(Some(Lookout::new(panel.factory().reader()?, counter)))
    }

    /// Ends it, once nobody reads. From then on readers find nothing.
    pub(crate) fn end<R: Wait>(self, rt: &R) {
        let Published {
            counter: _,
            sight: _,
            panel,
        } = self;
        if let Some(panel) = panel {
            panel.end(rt);
        }
    }
}

// A panel that shows that nothing was called, if passes look.
fn panel_for<J: Naming, R: Wait>(
    rt: &R,
    alloc: Global,
    limits: Limits,
    sight: &Sight<J>,
    places: Option<u32>,
) -> Result<Option<Panel<Shown<J>, Event<J>>>, AllocError>
    requires limits { limits ≡ J.limits }
    requires new { sight.now ≡ [] }
    requires some { IfSome places (λ n. 0 < n) }
    ensures { IfOk result (λ found. IfSome found (λ panel.
        (panel.writer.desk.shown.value ≡ [])
        × (drop panel.writer.behind panel.writer.log.items ≡ []))) }
{
    match places {
        Some(places) => Ok(Some(opened_panel(rt, alloc, limits, sight, places)?)),
        None => Ok(None),
    }
}

// Shows an entry, behind what is shown. It stands apart, so that where nobody looks the entry needs no place in memory.
#[inline(never)]
fn show_entry<J: Naming, R: Wait>(
    rt: &R,
    panel: &mut Panel<Shown<J>, Event<J>>,
    entry: Entry,
    sight: &Sight<J>,
) -> Result<(), AllocError>
    requires next { sight.now ≡ panel.old.writer.desk.shown.value ++ entry ∷ [] }
    requires pending { drop panel.old.writer.behind panel.old.writer.log.items ≡ [] }
    ensures ok { OnOk result (panel.new.writer.desk.shown.value ≡ sight.now) }
    ensures err { OnErr result
        (panel.new.writer.desk.shown.value ≡ panel.old.writer.desk.shown.value) }
    ensures none_pending { drop panel.new.writer.behind panel.new.writer.log.items ≡ [] }
{
    panel.put(Event::new(Change::told_by(entry), sight.again()))?;
    panel.show(rt);
    Ok(())
}
