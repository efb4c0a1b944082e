//! What a race writes.

ghost use Rattle.std.specs.Prelude.{◌≡◌, ◌++◌, ◌∷◌, [], OnErr, OnOk, codes, decimal, map};
ghost use mathlib.Core.List.{IsPrefix};
ghost use Rattle.dine_words.specs.Texts.{text_of_lines};
ghost use Rattle.dine_race.specs.Report.{meals_line, report_text, verdict_text};

use crate::meals::Meals;
use crate::racing::Raced;
use dine_front::Verdict;
use dine_journal::Journal;
use dine_lines::{Name, Names};
use dine_words::{push_number_line, push_numbered};
use std::alloc::{AllocError, Global};

impl Raced {
    /// Appends what is written of a race with so many workers: how many there were, how many calls were made, the meals
    /// of each name of the setup, and the verdict, each on a line of its own. On `Err`, which is want of
    /// memory, a part may have been appended, behind what stood there before.
    pub fn report(&self, alloc: Global, workers: u32, out: &mut Vec<u8>) -> Result<(), AllocError>
        ensures ok { OnOk result (out.new.items ≡ out.old.items
            ++ report_text workers self.now.names self.now.journal.entries self.now.verdict) }
        ensures err { OnErr result (IsPrefix out.old.items out.new.items) }
    {
        push_number_line(out, b"workers ", u64::from(workers))?;
        push_number_line(out, b"calls ", self.journal.len())?;
        push_meals(out, alloc, &self.names, &self.journal)?;
        push_verdict(out, self.verdict)?;
        Ok(())
    }
}

// A line for each name.
fn push_meals(
    out: &mut Vec<u8>,
    alloc: Global,
    names: &Names,
    journal: &Journal,
) -> Result<(), AllocError>
    ensures ok { OnOk result (out.new.items ≡ out.old.items
        ++ text_of_lines (map (meals_line journal.now.entries) names.now)) }
    ensures err { OnErr result (IsPrefix out.old.items out.new.items) }
{
    let meals = Meals::count(alloc, journal)?;
    for place in 0..names.len() {
        if let Some(named) = names.at(place) {
            push_meal(out, named.0, meals.of(named.1))?;
        }
    }
    Ok(())
}

// A line with a name and a number.
fn push_meal(out: &mut Vec<u8>, name: Name, meals: u64) -> Result<(), AllocError>
    ensures ok { OnOk result (out.new.items ≡ out.old.items
        ++ (codes "meals " ++ name ++ codes " " ++ decimal meals) ++ 10 ∷ []) }
    ensures err { OnErr result (IsPrefix out.old.items out.new.items) }
{
    out.extend_from_slice(b"meals ")?;
    out.extend_from_slice(name.letters())?;
    push_number_line(out, b" ", meals)
}

// The line of the verdict.
fn push_verdict(out: &mut Vec<u8>, verdict: Verdict) -> Result<(), AllocError>
    ensures ok { OnOk result (out.new.items ≡ out.old.items ++ verdict_text verdict ++ 10 ∷ []) }
    ensures err { OnErr result (IsPrefix out.old.items out.new.items) }
{
    match verdict {
        Verdict::Settled => out.extend_from_slice(b"settled\n"),
        Verdict::Missing(pass) => push_number_line(out, b"missing ", u64::from(pass)),
        Verdict::Differs(pass, place) => {
            push_numbered(out, b"differs ", u64::from(pass))?;
            push_number_line(out, b" ", place)
        }
    }
}
