//! The names that are bound, and the tasks that they are bound to.

ghost use Rattle.std.specs.Prelude.{◌≡◌, List, take, None, ◌≢◌, ◌<◌, ◌≤◌, ℕ, slice_index, IfNone, ◌∷◌, ◌++◌, [], true, false, not, is_some, length, IfOk, IfSome, IsTrue, OnOk, OnErr, slice_get, ◌↔◌};
ghost use Rattle.dine_lines.specs.Hints.{IsTaken, IsVacant, slot_number};
ghost use Rattle.dine_lines.specs.Names.{rebound, task_named};
ghost use Rattle.std.specs.Int.{to_le_bytes, w64};
ghost use Rattle.std.specs.Option.{option_map};
ghost use Rattle.dine_lines.specs.UsualLines.{IsFound};
ghost use Rattle.dine_lines.specs.Padding.{IsBoundAs, IsNameAt, padded};

use crate::name::Name;
use crate::seed::Seed;
use dine_words::Task;
use indexmap::IndexMap;
use indexmap::map::Entry;
use std::alloc::{AllocError, Global};
use std::marker::Model;
use std::ops::Range;

/// How far the hints of a name are followed.
#[derive(Clone, Copy)]
pub(crate) enum Reach {
    /// To the first hint. It finds nearly all names, without a call.
    First,
    /// To all hints.
    All,
}

/// What a word is, in two registers.
#[derive(Clone, Copy)]
pub(crate) enum Found {
    /// A bound name: the one at this place among the bound names.
    At(usize),
    /// A free name.
    Free,
    /// No name.
    NoName,
}

/// The names that are bound, each with its task, in the order in which they were bound.
#[derive(Drop)]
pub struct Names {
    tasks: IndexMap<Name, Task, Seed>,
    // Where a name is looked for first, without a hash.
    hints: Hints,
}

impl Model for Names {
    ghost use Rattle.dine_lines.specs.Names.{Names as Bindings};

    ghost Value = { Bindings };

    ghost view = { λ names. names.tasks.entries };

    ghost use Rattle.dine_lines.specs.Hints.{AreNoted};

    ghost invariant = { λ names.
        AreNoted names.hints.places.items names.hints.shift names.tasks.entries };
}

impl Names {
    /// No name is bound. It takes no memory yet: it takes memory from `alloc` as it grows. Somebody who chooses the names
    /// can make look-ups slow. For the names of a stranger's text take [`Names::new_seeded`].
    pub fn new(alloc: Global) -> Names
        ensures { result ≡ [] }
    {
        Names::new_seeded(alloc, Seed::fixed())
    }

    /// As [`Names::new`], with hashes of this seed.
    pub fn new_seeded(alloc: Global, seed: Seed) -> Names
        ensures { result ≡ [] }
    {
        Names {
            tasks: IndexMap::with_hasher(alloc, seed),
            hints: Hints::new(alloc),
        }
    }

    /// The task that a name is bound to, or `None` if the name is free.
    #[inline]
    pub fn task(&self, name: Name) -> Option<Task>
        ensures { result ≡ task_named self.now name }
    {
        let (low, high) = name.halves();
        if let Some(task) = self.hinted(low, high, Reach::All) {
            return Some(task);
        }
        if self.has_no_hint(low, high) {
            return None;
        }
        self.unhinted(name)
    }

    // As `task`, by the hash.
    #[inline(always)]
    fn unhinted(&self, name: Name) -> Option<Task>
        ensures { result ≡ task_named self.now name }
    {
        self.tasks.get(&name).copied()
    }

    /// Looks up the name whose letters are the first `len` bytes of a text, by its hash. A caller has found no hint that
    /// leads to the name, though its slot has a guess.
    #[inline(never)]
    pub(crate) fn find(&self, text: &[u8], len: usize) -> Found
        requires { len ≤ length text.now }
        ensures { IsFound self.now (take len text.now) result }
    {
        let Some(name) = Name::front(text, len) else {
            return Found::NoName;
        };
        match self.tasks.get_full(&name) {
            Some((place, _, _)) => Found::At(place),
            None => Found::Free,
        }
    }

    /// The task of the name that was bound at this place.
    #[inline(always)]
    pub(crate) fn task_at(&self, place: usize) -> Option<Task>
        ensures { result ≡ option_map (λ bound. bound.1) (slice_get self.now place) }
    {
        let (_, task) = self.tasks.get_index(place)?;
        Some(*task)
    }

    /// The task of the bound name whose letters, filled up with zeros, are these two numbers. `None` doesn't mean that the
    /// name is free: no hint within reach leads to it. The numbers may be the letters of no name. No name is found then.
    #[inline(always)]
    pub(crate) fn hinted(&self, low: u64, high: u64, reach: Reach) -> Option<Task>
        ensures { IfSome result (λ t. IsBoundAs self.now low high t) }
    {
        match self.hinted_first(low, high) {
            Some(task) => Some(task),
            None => match reach {
                Reach::All if !self.hints.is_vacant(low, high) => {
                    self.bound_at(self.hinted_behind(low, high)?, low, high)
                }
                Reach::First | Reach::All => None,
            },
        }
    }

    // As `hinted`, by the first hint only.
    #[inline(always)]
    fn hinted_first(&self, low: u64, high: u64) -> Option<Task>
        ensures { IfSome result (λ t. IsBoundAs self.now low high t) }
    {
        let place = self.hints.place_in(self.hints.slot_of(low, high))?;
        self.bound_at(place, low, high)
    }

    // The task of the name at this place, if its letters are these two numbers.
    #[inline(always)]
    fn bound_at(&self, place: usize, low: u64, high: u64) -> Option<Task>
        ensures { IfSome result (λ t. IsBoundAs self.now low high t) }
    {
        let (name, task) = self.tasks.get_index(place)?;
        if name.has_halves(low, high) {
            Some(*task)
        } else {
            None
        }
    }

    // The place of the name with these letters, if a hint behind the first one leads to it. Then another name has its slot.
    // It returns the place, which two registers hold. A task would go back through memory.
    #[inline(never)]
    fn hinted_behind(&self, low: u64, high: u64) -> Option<usize>
        ensures { IfSome result (λ place. IsNameAt self.now place low high) }
    {
        for slot in Hints::behind(self.hints.slot_of(low, high)) {
            let place = self.hints.place_in(slot)?;
            let (name, _) = self.tasks.get_index(place)?;
            if name.has_halves(low, high) {
                return Some(place);
            }
        }
        None
    }

    /// Whether the slot of these letters, filled up with zeros, has no hint. Then their name is free. If few names are
    /// bound, nearly all free names are found so, without a hash.
    #[inline(always)]
    pub(crate) fn has_no_hint(&self, low: u64, high: u64) -> bool
        ensures { IsTrue result → (name : List ℕ)
            → padded name ≡ to_le_bytes w64 low ++ to_le_bytes w64 high
            → task_named self.now name ≡ None }
    {
        self.hints.is_vacant(low, high)
    }

    /// Binds a name to a task if the name is free, and returns whether it was. One hash serves to look the name up and to
    /// bind it. An error is want of memory, and nothing changes then.
    pub fn bind(&mut self, name: Name, task: Task) -> Result<bool, AllocError>
        ensures free { IfOk result (λ free. free ≡ not (is_some (task_named self.old name))) }
        ensures bound { result ≡ Ok true → self.new ≡ self.old ++ (name, task) ∷ [] }
        ensures kept { result ≡ Ok false → self.new ≡ self.old }
        ensures err { OnErr result (self.new ≡ self.old) }
    {
        self.make_hints()?;
        let place = self.tasks.len();
        // The slot is read first, and then the name is looked up, so that the processor waits for both loads at once. If
        // there are many names, neither is in its cache.
        let (low, high) = name.halves();
        let slot = self.hints.slot_in(low, high);
        if !insert_free(&mut self.tasks, name, task)? {
            return Ok(false);
        }
        self.hints.fill(slot, place);
        Ok(true)
    }

    /// Binds a name to a task, also a name that is bound. An error is want of memory, and nothing changes then.
    pub fn rebind(&mut self, name: Name, task: Task) -> Result<(), AllocError>
        ensures ok { OnOk result (self.new ≡ rebound self.old name task) }
        ensures err { OnErr result (self.new ≡ self.old) }
    {
        self.make_hints()?;
        let place = self.tasks.len();
        let (low, high) = name.halves();
        match self.tasks.insert(name, task)? {
            Some(_) => {}
            None => self.hints.note(low, high, place),
        }
        Ok(())
    }

    // Makes more hints if there are too few for one more name. An error is want of memory.
    fn make_hints(&mut self) -> Result<(), AllocError>
        ensures { self.new ≡ self.old }
    {
        if self.hints.most() <= self.tasks.len() {
            self.make_more_hints()?;
        }
        Ok(())
    }

    // Makes hints for more names, and notes all names anew. The map of the names gets room for as many names, so that hints
    // and map grow in few large steps, and no name is hashed anew between two steps. An error is want of memory.
    #[inline(never)]
    fn make_more_hints(&mut self) -> Result<(), AllocError>
        ensures { self.new ≡ self.old }
    {
        let len = self.tasks.len();
        let mut hints = Hints::with_room(*self.tasks.allocator(), len)?;
        for place in 0..len {
            if let Some((name, _)) = self.tasks.get_index(place) {
                let (low, high) = name.halves();
                hints.note(low, high, place);
            }
        }
        self.tasks
            .reserve(hints.most().saturating_sub(len).min(MOST))?;
        self.hints = hints;
        Ok(())
    }

    /// The same names, bound to the same tasks. An error is want of memory.
    pub fn copy(&self) -> Result<Names, AllocError>
        ensures { IfOk result (λ names. names ≡ self.now) }
    {
        Ok(Names {
            tasks: self.tasks.clone()?,
            hints: self.hints.copy()?,
        })
    }

    /// How many names are bound.
    pub fn len(&self) -> usize
        ensures { result ≡ length self.now }
    {
        self.tasks.len()
    }

    /// Whether no name is bound.
    pub fn is_empty(&self) -> bool
        ensures { IsTrue result ↔ (self.now ≡ []) }
    {
        self.tasks.is_empty()
    }

    /// The name that was bound at this place among them, counted from 0, with its task, or `None` past the last.
    pub fn at(&self, place: usize) -> Option<(Name, Task)>
        ensures { result ≡ slice_get self.now place }
    {
        let (name, task) = self.tasks.get_index(place)?;
        Some((*name, *task))
    }
}

// Puts a name with its task last if the name isn't there, and returns whether it did. One hash serves to look the name up
// and to put it there. An error is want of memory, and nothing changes then.
#[inline(always)]
fn insert_free(
    tasks: &mut IndexMap<Name, Task, Seed>,
    name: Name,
    task: Task,
) -> Result<bool, AllocError>
    ensures free { IfOk result (λ free.
        free ≡ not (is_some (task_named tasks.old.entries name))) }
    ensures bound { result ≡ Ok true →
        tasks.new.entries ≡ tasks.old.entries ++ (name, task) ∷ [] }
    ensures kept { result ≡ Ok false → tasks.new.entries ≡ tasks.old.entries }
    ensures err { OnErr result (tasks.new.entries ≡ tasks.old.entries) }
{
    match tasks.entry(name)? {
        Entry::Occupied(_) => Ok(false),
        Entry::Vacant(vacant) => {
            vacant.insert(task);
            Ok(true)
        }
    }
}

// How many slots there are at first.
const FEWEST: usize = 1_024;

// How many slots there are at most.
const MOST: usize = 1 << 20;

// A product is shifted by so many bits to pick one of the fewest slots.
const FEWEST_SHIFT: u32 = 54;

// Up to so many slots there are eight slots for each name, so that few names share a slot. Past them there are two for each
// name, since so many slots take long to make.
const SPARSE: usize = 1 << 16;

// The guess for a name can be in so many slots: the one that its letters pick, and the slots behind that one.
const REACH: usize = 8;

// How many slots are filled at once. The C library fills more of them by `rep stosb`, which is slow to begin.
const PART: usize = 512;

// The content of a slot without a guess. No name has this place.
const NONE: u32 = u32::MAX;

// The last place that can be guessed at.
const LAST: u32 = NONE - 1;

/// A slot, and the guess in it.
#[derive(Clone, Copy)]
pub struct Slot {
    number: usize,
    place: u32,
}

/// A guess, for the letters of each name, at the place of the name among the bound names.
///
/// The letters pick a slot. The name that was noted last has the slot that its letters pick. The guess that was there moves
/// to a slot behind it, if one is vacant. A guess may be wrong, and a guess that was to move may be lost. So a caller
/// compares the letters of the name at the guessed place.
///
/// One answer rests on guesses: if the slot of a name is vacant, the name is free, since the slot of each bound name has a
/// guess.
#[derive(Drop)]
pub struct Hints {
    places: Vec<u32>,
    // A product is shifted by so many bits. The top bits that are left pick a slot.
    shift: u32,
    // With so many names there are too few slots for one more.
    most: usize,
}

impl Hints {
    /// No guesses, and no memory taken.
    pub fn new(alloc: Global) -> Hints {
        Hints {
            places: Vec::new(alloc),
            shift: 0,
            most: 0,
        }
    }

    /// Room for the guesses of so many names, and of some more. No guess is noted. An error is want of memory.
    pub fn with_room(alloc: Global, names: usize) -> Result<Hints, AllocError> {
        let mut len = FEWEST;
        let mut shift = FEWEST_SHIFT;
        while len < MOST && names_for(len) <= names {
            len *= 4;
            shift = shift.saturating_sub(2);
        }
        Ok(Hints {
            // The last slot that letters pick has slots behind it too.
            places: free_slots(alloc, len.saturating_add(REACH))?,
            shift,
            most: if len < MOST {
                names_for(len)
            } else {
                usize::MAX
            },
        })
    }

    /// With so many names there are too few slots for one more.
    pub fn most(&self) -> usize {
        self.most
    }

    /// The slot that these letters pick.
    #[inline(always)]
    pub fn slot_of(&self, low: u64, high: u64) -> usize
        ensures { result ≡ slot_number self.now.shift low high }
    {
        let product = (low ^ high.rotate_left(29)).wrapping_mul(0x9e37_79b9_7f4a_7c15);
        product.wrapping_shr(self.shift) as usize
    }

    /// The guess in a slot, if there is such a slot. In a vacant slot it is a place that no name has.
    #[inline(always)]
    pub fn place_in(&self, slot: usize) -> Option<usize>
        ensures within { IfSome result (λ place. slot < length self.now.places.items) }
        ensures place { IfSome result (λ place. place ≡ slice_index self.now.places.items slot) }
    {
        let place = self.places.as_slice().get(slot)?;
        Some(*place as usize)
    }

    /// Whether the slot that these letters pick is vacant. Then their name wasn't noted, since a guess leaves its slot only
    /// when another guess takes the slot.
    #[inline(always)]
    pub fn is_vacant(&self, low: u64, high: u64) -> bool
        ensures { IsTrue result →
            IsVacant self.now.places.items (slot_number self.now.shift low high) }
    {
        self.place_in(self.slot_of(low, high)) == Some(NONE as usize)
    }

    /// The slots behind this one that can have the guess of a name which picks it.
    pub fn behind(slot: usize) -> Range<usize> {
        slot.saturating_add(1)..slot.saturating_add(REACH)
    }

    /// Notes the place of the name with these letters. The guess that was in its slot moves behind it, if there is room. A
    /// place past [`LAST`] is noted as [`LAST`], which is a wrong guess.
    pub fn note(&mut self, low: u64, high: u64, place: usize)
        ensures shift { self.new.shift ≡ self.old.shift }
        ensures kept { (slot : ℕ) → IsTaken self.old.places.items slot
            → IsTaken self.new.places.items slot }
        ensures noted { IsTaken self.new.places.items (slot_number self.old.shift low high) }
    {
        self.fill(self.slot_in(low, high), place);
    }

    /// The slot that these letters pick, with the guess in it, if there is such a slot.
    #[inline(always)]
    pub fn slot_in(&self, low: u64, high: u64) -> Option<Slot>
        ensures some { IfSome result (λ slot.
            slot.number ≡ slot_number self.now.shift low high) }
        ensures none { IfNone result
            (length self.now.places.items ≤ slot_number self.now.shift low high) }
    {
        let number = self.slot_of(low, high);
        let place = self.places.as_slice().get(number)?;
        Some(Slot {
            number,
            place: *place,
        })
    }

    /// Notes a place in a slot that [`Hints::slot_in`] has read. The guess that was in the slot moves behind it, if there is
    /// room. A place past [`LAST`] is noted as [`LAST`], which is a wrong guess.
    #[inline(always)]
    pub fn fill(&mut self, slot: Option<Slot>, place: usize)
        ensures shift { self.new.shift ≡ self.old.shift }
        ensures len { length self.new.places.items ≡ length self.old.places.items }
        ensures kept { (slot : ℕ) → IsTaken self.old.places.items slot
            → IsTaken self.new.places.items slot }
        ensures noted { IfSome slot (λ s. IsTaken self.new.places.items s.number) }
    {
        let Some(slot) = slot else {
            return;
        };
        if slot.number >= self.places.len() {
            return;
        }
        self.places[slot.number] = place.min(LAST as usize) as u32;
        if slot.place != NONE {
            self.put_behind(slot.number, slot.place);
        }
    }

    // Puts a place in the first vacant slot behind this one, if there is one.
    fn put_behind(&mut self, slot: usize, place: u32)
        requires { place ≢ NONE }
        ensures shift { self.new.shift ≡ self.old.shift }
        ensures len { length self.new.places.items ≡ length self.old.places.items }
        ensures kept { (slot : ℕ) → IsTaken self.old.places.items slot
            → IsTaken self.new.places.items slot }
    {
        if let Some(near) = self.vacant_behind(slot) {
            self.places[near] = place;
        }
    }

    // The first vacant slot behind this one, if there is one.
    fn vacant_behind(&self, slot: usize) -> Option<usize>
        ensures { IfSome result (λ near. near < length self.now.places.items) }
    {
        for near in Hints::behind(slot) {
            if self.place_in(near)? == NONE as usize {
                return Some(near);
            }
        }
        None
    }

    /// A copy of the guesses. An error is want of memory.
    pub fn copy(&self) -> Result<Hints, AllocError>
        ensures places { IfOk result (λ hints.
            hints.places.items ≡ self.now.places.items) }
        ensures shift { IfOk result (λ hints. hints.shift ≡ self.now.shift) }
    {
        Ok(Hints {
            places: self.places.clone()?,
            shift: self.shift,
            most: self.most,
        })
    }
}

// So many vacant slots. They are made a part at a time. An error is want of memory.
fn free_slots(alloc: Global, slots: usize) -> Result<Vec<u32>, AllocError> {
    let mut places = Vec::with_capacity(alloc, slots)?;
    while places.len() < slots {
        let part = (slots - places.len()).min(PART);
        places.resize(places.len() + part, NONE)?;
    }
    Ok(places)
}

// How many names so many slots are enough for.
fn names_for(slots: usize) -> usize {
    if slots <= SPARSE {
        slots / 8
    } else {
        slots / 2
    }
}
