//! Entries and receipts in few bytes: both tasks' numbers side by side, and a byte each for what was called and replied.

ghost use Rattle.std.specs.Prelude.{◌≡◌, ◌≢◌, ◌↔◌, ℕ, IfOk, IsFalse, IsTrue};
ghost use Rattle.dine_words.specs.declared.task.Task.{Task};
ghost use Rattle.dine_journal.specs.Flat.{HasRoomAside, IsOfPass, JoinsAlone, NamesAtMostOne, NamesTask, call_of, entry_of, place_of, receipt_of, reply_with};

use crate::hall::Answer;
use dine_words::{Call, Entry, Refusal, Reply, State, Task};
use std::alloc::{AllocError, Global};

/// The kinds of calls.
#[derive(Clone, Copy, Debug, PartialEq, Eq)]
pub enum CallKind {
    Join,
    Leave,
    Conflict,
    Separate,
    Hungry,
    Begin,
    Finish,
    Withdraw,
}

/// The kinds of replies: that a task joined, that the call was carried out, or a refusal. The last ones but one are those of
/// a wrong state, by the state found.
#[derive(Clone, Copy, Debug, PartialEq, Eq)]
pub enum ReplyKind {
    Joined,
    Done,
    Full,
    Unknown,
    Same,
    Already,
    Apart,
    BothEating,
    NoRoom,
    Thinks,
    Hungers,
    Eats,
    NotYet,
}

/// An entry in 32 bytes, whatever numbers its tasks and its pass have. A task that the call doesn't name is 0 and 0.
#[derive(Clone, Copy, Debug, PartialEq, Eq)]
pub struct FlatEntry {
    pub(crate) first_born: u64,
    pub(crate) second_born: u64,
    pub(crate) first_slot: u32,
    pub(crate) second_slot: u32,
    pub(crate) pass: u32,
    pub(crate) call: CallKind,
    pub(crate) reply: ReplyKind,
}

/// A receipt in 24 bytes, whatever numbers it has: the entry that it is for, and where that stands.
#[derive(Drop)]
pub enum FlatReceipt {
    /// For a call that names one task at most: that task, or the one that joined.
    Short {
        call: CallKind,
        reply: ReplyKind,
        slot: u32,
        born: u64,
        place: u64,
    },
    /// For any call: the entry lies aside.
    Long {
        entry: Box<FlatEntry>,
        place: u64,
    },
}

// The kinds of a short receipt lie behind its tag in this order.
const _: () = prove!(size_of::<FlatReceipt>() == 24);

/// Room for what a receipt can't hold itself.
#[derive(Drop)]
pub struct Aside {
    pub(crate) entry: Option<Box<FlatEntry>>,
}

// What lies there where a call names no task.
const NOBODY: Task = Task { slot: 0, born: 0 };

// What lies aside until the call is answered.
const EMPTY: FlatEntry = FlatEntry {
    first_born: 0,
    second_born: 0,
    first_slot: 0,
    second_slot: 0,
    pass: 0,
    call: CallKind::Join,
    reply: ReplyKind::Done,
};

impl FlatEntry {
    /// The entry, in few bytes.
    #[inline(always)]
    pub(crate) fn new(entry: Entry) -> Self
        requires { JoinsAlone entry.call entry.reply }
        ensures { entry_of result ≡ entry }
    {
        let (call, first, second) = parts(entry.call, entry.reply);
        FlatEntry {
            first_born: first.born,
            second_born: second.born,
            first_slot: first.slot,
            second_slot: second.slot,
            pass: entry.pass,
            call,
            reply: kind_of_reply(entry.reply),
        }
    }

    /// The entry as it was.
    #[inline(always)]
    pub(crate) fn entry(&self) -> Entry
        ensures { result ≡ entry_of self.now }
    {
        Entry {
            pass: self.pass,
            call: self.call(),
            reply: self.reply(),
        }
    }

    // Its call.
    #[inline(always)]
    fn call(&self) -> Call
        ensures { result ≡ (entry_of self.now).call }
    {
        let first = Task {
            slot: self.first_slot,
            born: self.first_born,
        };
        let second = Task {
            slot: self.second_slot,
            born: self.second_born,
        };
        match self.call {
            CallKind::Join => Call::Join,
            CallKind::Leave => Call::Leave(first),
            CallKind::Conflict => Call::Conflict(first, second),
            CallKind::Separate => Call::Separate(first, second),
            CallKind::Hungry => Call::Hungry(first),
            CallKind::Begin => Call::Begin(first),
            CallKind::Finish => Call::Finish(first),
            CallKind::Withdraw => Call::Withdraw(first),
        }
    }

    // Its reply.
    #[inline(always)]
    fn reply(&self) -> Reply
        ensures { result ≡ (entry_of self.now).reply }
    {
        match self.reply {
            ReplyKind::Joined => Reply::Joined(Task {
                slot: self.first_slot,
                born: self.first_born,
            }),
            ReplyKind::Done => Reply::Done,
            ReplyKind::Full => Reply::Refused(Refusal::Full),
            ReplyKind::Unknown => Reply::Refused(Refusal::Unknown),
            ReplyKind::Same => Reply::Refused(Refusal::Same),
            ReplyKind::Already => Reply::Refused(Refusal::Already),
            ReplyKind::Apart => Reply::Refused(Refusal::Apart),
            ReplyKind::BothEating => Reply::Refused(Refusal::BothEating),
            ReplyKind::NoRoom => Reply::Refused(Refusal::NoRoom),
            ReplyKind::Thinks => Reply::Refused(Refusal::WrongState(State::Thinking)),
            ReplyKind::Hungers => Reply::Refused(Refusal::WrongState(State::Hungry)),
            ReplyKind::Eats => Reply::Refused(Refusal::WrongState(State::Eating)),
            ReplyKind::NotYet => Reply::Refused(Refusal::NotYet),
        }
    }
}

impl Aside {
    /// Room for the receipt for a call: none is needed where the call names one task at most. An error is want of memory.
    #[inline(always)]
    pub fn new(alloc: Global, call: Call) -> Result<Self, AllocError>
        ensures { IfOk result (HasRoomAside call) }
    {
        match call {
            Call::Conflict(_, _) | Call::Separate(_, _) => {
                let entry = Box::new(alloc, EMPTY)?;
                Ok(Aside { entry: Some(entry) })
            }
            Call::Join
            | Call::Leave(_)
            | Call::Hungry(_)
            | Call::Begin(_)
            | Call::Finish(_)
            | Call::Withdraw(_) => Ok(Aside { entry: None }),
        }
    }
}

impl FlatReceipt {
    /// The receipt for a call of this pass, in few bytes.
    #[inline(always)]
    pub fn new(pass: u32, call: Call, answer: Answer, aside: Aside) -> Self
        requires joins { JoinsAlone call answer.reply }
        requires room { HasRoomAside call aside }
        ensures receipt { receipt_of result ≡ (call, answer) }
        ensures pass { IsOfPass result pass }
    {
        let entry = FlatEntry::new(Entry {
            pass,
            call,
            reply: answer.reply,
        });
        match aside.entry {
            Some(mut lying) => {
                *lying = entry;
                FlatReceipt::Long {
                    entry: lying,
                    place: answer.place,
                }
            }
            None => short(entry, answer.place),
        }
    }

    // The receipt as it was.
    pub(crate) fn receipt(&self) -> (Call, Answer)
        ensures { result ≡ receipt_of self.now }
    {
        let entry = self.entry();
        let answer = Answer {
            place: self.place(),
            reply: entry.reply(),
        };
        (entry.call(), answer)
    }

    // Where the entry stands that it is for.
    #[inline(always)]
    fn place(&self) -> u64
        ensures { result ≡ place_of self.now }
    {
        match self {
            FlatReceipt::Short { place, .. } | FlatReceipt::Long { place, .. } => *place,
        }
    }

    // The entry that it is for. A short one leaves out which pass it is of.
    fn entry(&self) -> FlatEntry
        ensures call { (entry_of result).call ≡ (receipt_of self.now).0 }
        ensures reply { (entry_of result).reply ≡ (receipt_of self.now).1.reply }
    {
        match self {
            FlatReceipt::Short {
                call,
                reply,
                slot,
                born,
                ..
            } => FlatEntry {
                first_born: *born,
                second_born: NOBODY.born,
                first_slot: *slot,
                second_slot: NOBODY.slot,
                pass: 0,
                call: *call,
                reply: *reply,
            },
            FlatReceipt::Long { entry, .. } => **entry,
        }
    }

    // Whether it is the receipt for an entry at a place.
    #[inline(always)]
    pub(crate) fn is_for(&self, entry: &FlatEntry, place: u64) -> bool
        ensures is { IsTrue result → receipt_of self.now
            ≡ (
              (entry_of entry.now).call,
              record { place = place; reply = (entry_of entry.now).reply },
            ) }
        ensures is_not { IsFalse result → receipt_of self.now
            ≢ (
              (entry_of entry.now).call,
              record { place = place; reply = (entry_of entry.now).reply },
            ) }
    {
        if self.place() != place {
            return false;
        }
        // The others are compared by what they say, since some of their bytes may be of a task that the call doesn't
        // name.
        self.lies_as(entry) || self.reads_as(entry)
    }

    // Whether its bytes are an entry's. Where they are, the two say the same.
    #[inline(always)]
    fn lies_as(&self, entry: &FlatEntry) -> bool
        ensures call { IsTrue result → (receipt_of self.now).0 ≡ (entry_of entry.now).call }
        ensures reply { IsTrue result →
            (receipt_of self.now).1.reply ≡ (entry_of entry.now).reply }
    {
        match self {
            FlatReceipt::Short {
                born,
                slot,
                call,
                reply,
                ..
            } => {
                *born == entry.first_born
                    && *slot == entry.first_slot
                    && *call == entry.call
                    && *reply == entry.reply
                    && entry.second_born == NOBODY.born
                    && entry.second_slot == NOBODY.slot
            }
            FlatReceipt::Long { entry: mine, .. } => **mine == *entry,
        }
    }

    // Whether its call and its reply are those of an entry.
    #[inline(never)]
    fn reads_as(&self, entry: &FlatEntry) -> bool
        ensures { IsTrue result ↔ (((receipt_of self.now).0 ≡ (entry_of entry.now).call)
            × ((receipt_of self.now).1.reply ≡ (entry_of entry.now).reply)) }
    {
        let mine = self.entry();
        mine.call() == entry.call() && mine.reply() == entry.reply()
    }
}

// The receipt for an entry at a place, whose second task is left out.
#[inline(always)]
fn short(entry: FlatEntry, place: u64) -> FlatReceipt
    requires { NamesAtMostOne (entry_of entry).call }
    ensures receipt { receipt_of result
        ≡ ((entry_of entry).call, record { place = place; reply = (entry_of entry).reply }) }
    ensures pass { (n : ℕ) → IsOfPass result n }
{
    FlatReceipt::Short {
        call: entry.call,
        reply: entry.reply,
        slot: entry.first_slot,
        born: entry.first_born,
        place,
    }
}

// The kind of a call, and the tasks that lie there with it: those that it names, or the one that joined.
#[inline(always)]
fn parts(call: Call, reply: Reply) -> (CallKind, Task, Task)
    requires { JoinsAlone call reply }
    ensures call { call_of result.0 result.1 result.2 ≡ call }
    ensures reply { NamesTask reply result.1 }
{
    match call {
        Call::Join => (CallKind::Join, joined(reply), NOBODY),
        Call::Leave(task) => (CallKind::Leave, task, NOBODY),
        Call::Conflict(one, other) => (CallKind::Conflict, one, other),
        Call::Separate(one, other) => (CallKind::Separate, one, other),
        Call::Hungry(task) => (CallKind::Hungry, task, NOBODY),
        Call::Begin(task) => (CallKind::Begin, task, NOBODY),
        Call::Finish(task) => (CallKind::Finish, task, NOBODY),
        Call::Withdraw(task) => (CallKind::Withdraw, task, NOBODY),
    }
}

// The task that a reply names, if it names one.
#[inline(always)]
fn joined(reply: Reply) -> Task
    ensures { NamesTask reply result }
{
    match reply {
        Reply::Joined(task) => task,
        Reply::Done | Reply::Refused(_) => NOBODY,
    }
}

// The kind of a reply.
#[inline(always)]
fn kind_of_reply(reply: Reply) -> ReplyKind
    ensures { (u : Task) → NamesTask reply u → reply_with result u ≡ reply }
{
    match reply {
        Reply::Joined(_) => ReplyKind::Joined,
        Reply::Done => ReplyKind::Done,
        Reply::Refused(refusal) => kind_of_refusal(refusal),
    }
}

// The kind of a refusal.
#[inline(always)]
fn kind_of_refusal(refusal: Refusal) -> ReplyKind
    ensures { (u : Task) → reply_with result u ≡ Reply.Refused refusal }
{
    match refusal {
        Refusal::Full => ReplyKind::Full,
        Refusal::Unknown => ReplyKind::Unknown,
        Refusal::Same => ReplyKind::Same,
        Refusal::Already => ReplyKind::Already,
        Refusal::Apart => ReplyKind::Apart,
        Refusal::BothEating => ReplyKind::BothEating,
        Refusal::NoRoom => ReplyKind::NoRoom,
        Refusal::WrongState(State::Thinking) => ReplyKind::Thinks,
        Refusal::WrongState(State::Hungry) => ReplyKind::Hungers,
        Refusal::WrongState(State::Eating) => ReplyKind::Eats,
        Refusal::NotYet => ReplyKind::NotYet,
    }
}
