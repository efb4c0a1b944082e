//! What a front is opened from, and what its opening makes: the board that looks read, and the passes.

ghost use Rattle.std.specs.Prelude.{◌≡◌, ◌≢◌, ◌+◌, ◌<◌, ◌≤◌, ◌↔◌, ◌⊎◌, [], if◌then◌else◌, true, false, IfErr, IfOk, IfSome, None, OnOk, Some, drop};
ghost use Rattle.dine_front.specs.Passes.{AreNew, most_passes};

use crate::counted::EmptyBook;
use crate::front_fault::OpenFault;
use crate::naming::{MAX_PASSES, Naming};
use crate::panel::Panel;
use crate::pass::Pass;
use crate::published::Published;
use crate::shown::{Event, Shown};
use crate::sight::Sight;
use dine_journal::{Board, Hall};
use dine_words::Limits;
use std::alloc::{AllocError, Global};
use std::marker::Model;
use std::sync::Wait;
use std::sync::ledger::Share;

/// What a front is opened from: its limits, how many passes it is to have, whether they look, and the book that its
/// history is written in. It has no name yet.
#[derive(Drop)]
pub struct Opened {
    pub(crate) limits: Limits,
    pub(crate) passes: u32,
    pub(crate) has_looks: bool,
    pub(crate) book: EmptyBook,
}

impl Model for Opened {
    ghost use Rattle.std.specs.Prelude.{◌<◌, ◌≤◌};
    ghost use Rattle.dine_front.specs.Passes.{Opened as Opening, most_passes};

    ghost Value = { Opening };

    ghost view = { λ opened. record {
      limits = opened.limits;
      passes = opened.passes;
      looks = opened.has_looks;
      book = opened.book.seen.book;
    } };

    ghost invariant = { λ opened. (0 < opened.passes) × (opened.passes ≤ most_passes) };
}

impl Opened {
    /// Makes ready to open a front whose passes may look. The one fault is `Count`, which is answered exactly where `passes`
    /// is not from 1 to 16. It takes no memory.
    pub fn new(limits: Limits, passes: u32) -> Result<Self, OpenFault>
        ensures count { (result ≡ Err OpenFault.Count) ↔ ((passes ≡ 0) ⊎ (most_passes < passes)) }
        ensures fault { IfErr result (λ fault. fault ≡ OpenFault.Count) }
        ensures terms { IfOk result (λ opened.
            (opened.limits ≡ limits) × (opened.passes ≡ passes)) }
        ensures looks { IfOk result (λ opened. opened.looks ≡ true) }
    {
        if passes == 0 || passes > MAX_PASSES {
            return Err(OpenFault::Count);
        }
        Ok(Opened {
            limits,
            passes,
            has_looks: true,
            book: EmptyBook::new(),
        })
    }

    /// The same without looks: each [`Pass::look`] at the front is `Gone`. Nothing is published then, which with many
    /// passes is most of what a call does under the lock.
    pub fn without_looks(self) -> Self
        ensures { result ≡ record self { looks = false } }
    {
        let Opened {
            limits,
            passes,
            has_looks: _,
            book,
        } = self;
        Opened {
            limits,
            passes,
            has_looks: false,
            book,
        }
    }

    // How many places to look from the front is to have, if its passes look: one for each.
    pub(crate) fn places(&self) -> Option<u32>
        ensures places { result ≡ (if self.now.looks then Some self.now.passes else None) }
        ensures some { IfSome result (λ places. 0 < places) }
    {
        if self.has_looks {
            Some(self.passes)
        } else {
            None
        }
    }
}

// The hall of a front that nobody called yet, and what is published of it, with places for so many where passes look.
pub(crate) fn opened_hall<J: Naming, R: Wait>(
    rt: &R,
    alloc: Global,
    limits: Limits,
    book: EmptyBook,
    places: Option<u32>,
) -> Result<(Hall, Published<J>), AllocError>
    requires limits { limits ≡ J.limits }
    requires book { book.seen.book ≡ J.book }
    requires some { IfSome places (λ n. 0 < n) }
    ensures hall { IfOk result (λ opened. (opened.0.limits ≡ limits) × (opened.0.history ≡ [])) }
    ensures published { IfOk result (λ opened. opened.1 ≡ []) }
{
    let EmptyBook { counter, seen } = book;
    let hall = Hall::new(alloc, limits)?;
    let published = Published::new(rt, alloc, limits, counter, Sight::first(seen), places)?;
    Ok((hall, published))
}

// A panel that shows that nothing was called, with places for so many to look from. Its log has room for the events of one
// call and the call before it, so that no call lacks memory once its entry is written in the book.
pub(crate) fn opened_panel<J: Naming, R: Wait>(
    rt: &R,
    alloc: Global,
    limits: Limits,
    sight: &Sight<J>,
    places: u32,
) -> Result<Panel<Shown<J>, Event<J>>, AllocError>
    requires { (limits ≡ J.limits) × (sight.now ≡ []) × (0 < places) }
    ensures { IfOk result (λ panel. (panel.writer.desk.shown.value ≡ [])
        × (drop panel.writer.behind panel.writer.log.items ≡ [])) }
{
    let first = nothing_shown(alloc, limits, sight)?;
    let second = nothing_shown(alloc, limits, sight)?;
    let mut panel = Panel::new(alloc, first, second, places)?;
    match show_nothing_twice(rt, &mut panel, sight) {
        Ok(()) => Ok(panel),
        Err(fault) => {
            panel.end(rt);
            Err(fault)
        }
    }
}

// What looks read where nothing was called.
fn nothing_shown<J: Naming>(
    alloc: Global,
    limits: Limits,
    sight: &Sight<J>,
) -> Result<Shown<J>, AllocError>
    requires { (limits ≡ J.limits) × (sight.now ≡ []) }
    ensures { IfOk result (λ shown. shown ≡ []) }
{
    Ok(Shown::new(Board::new(alloc, limits)?, sight.again()))
}

// Shows an event that tells nothing, and then another, so that the log has room for two.
fn show_nothing_twice<J: Naming, R: Wait>(
    rt: &R,
    panel: &mut Panel<Shown<J>, Event<J>>,
    sight: &Sight<J>,
) -> Result<(), AllocError>
    requires nothing { sight.now ≡ [] }
    requires shown { panel.old.writer.desk.shown.value ≡ [] }
    requires pending { drop panel.old.writer.behind panel.old.writer.log.items ≡ [] }
    ensures shown { OnOk result (panel.new.writer.desk.shown.value ≡ []) }
    ensures none_pending { OnOk result
        (drop panel.new.writer.behind panel.new.writer.log.items ≡ []) }
{
    for _ in 0..2 {
        panel.put(Event::new(None, sight.again()))?;
        panel.show(rt);
    }
    Ok(())
}

// Cuts a part of the ledger for each pass, and gives it a place to look from, if passes look.
pub(crate) fn hand_out<J: Naming>(
    alloc: Global,
    rest: &mut Share<J>,
    passes: u32,
    published: &Published<J>,
) -> Result<Vec<Pass<J>>, OpenFault>
    requires { (rest.old.amount ≡ 0) × (passes < rest.old.parts)
        × (published.now ≡ []) × (passes ≤ most_passes) }
    ensures fault { IfErr result (λ fault. fault ≢ OpenFault.Count) }
    ensures new { IfOk result (λ handed. AreNew passes handed.items) }
    ensures parts { IfOk result (λ _. rest.new.parts + passes ≡ rest.old.parts) }
    ensures amount { IfOk result (λ _. rest.new.amount ≡ 0) }
{
    let Ok(mut handed) = Vec::with_capacity(alloc, passes as usize) else {
        return Err(OpenFault::Memory);
    };
    hand_each(alloc, rest, passes, published, &mut handed)?;
    Ok(handed)
}

// The same, into a list that is empty at first.
fn hand_each<J: Naming>(
    alloc: Global,
    rest: &mut Share<J>,
    passes: u32,
    published: &Published<J>,
    handed: &mut Vec<Pass<J>>,
) -> Result<(), OpenFault>
    requires ledger { (rest.old.amount ≡ 0) × (passes < rest.old.parts) }
    requires few { passes ≤ most_passes }
    requires new { published.now ≡ [] }
    requires empty { handed.old.items ≡ [] }
    ensures fault { IfErr result (λ fault. fault ≢ OpenFault.Count) }
    ensures new { OnOk result (AreNew passes handed.new.items) }
    ensures parts { OnOk result (rest.new.parts + passes ≡ rest.old.parts) }
    ensures amount { OnOk result (rest.new.amount ≡ 0) }
{
    for number in 0..passes {
        let pass = new_pass(alloc, rest, number, published)?;
        if handed.push(pass).is_err() {
            return Err(OpenFault::Memory);
        }
    }
    Ok(())
}

// The pass with this number, which gets a part of the ledger.
fn new_pass<J: Naming>(
    alloc: Global,
    rest: &mut Share<J>,
    number: u32,
    published: &Published<J>,
) -> Result<Pass<J>, OpenFault>
    requires ledger { (rest.old.amount ≡ 0) × (1 < rest.old.parts) }
    requires in_range { number < most_passes }
    requires new { published.now ≡ [] }
    ensures fault { IfErr result (λ fault. fault ≡ OpenFault.NoPlace) }
    ensures new { IfOk result (λ pass.
        pass ≡ record { number = number; receipts = []; seen = [] }) }
    ensures parts { rest.new.parts + 1 ≡ rest.old.parts }
    ensures amount { rest.new.amount ≡ 0 }
{
    let share = rest.split_off(1, 0);
    let Ok(lookout) = published.lookout() else {
        return Err(OpenFault::NoPlace);
    };
    Ok(Pass::new(alloc, number, share, published.sight(), lookout))
}
