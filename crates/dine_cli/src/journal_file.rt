//! The file of the journal that is gone on with.

ghost use Rattle.std.specs.Prelude.{MatchOption};
ghost use Rattle.dine_cli.specs.Asked.{CanBeBehind, LacksJournal};
ghost use Rattle.dine_cli.specs.JournalFile.{remaining_of};

use dine_command_line::{Asked, Host};
use dine_words::{Failed, Source};

/// The file of the journal that is gone on with. If none is gone on with, it reads as an empty file does.
#[derive(Drop)]
pub(crate) struct JournalFile<F> {
    file: Option<F>,
}

impl<F: Source> Source for JournalFile<F> {
    ghost use Rattle.dine_cli.specs.JournalFile.{mark_of, remaining_of};

    ghost remaining = { remaining_of F.remaining };

    ghost mark = { mark_of F.mark };

    fn read(&mut self, buffer: &mut [u8]) -> Result<usize, Failed> {
        match &mut self.file {
            Some(file) => file.read(buffer),
            None => Ok(0),
        }
    }
}

/// Opens the journal that is gone on with, if one is. `None` says that it can't be opened.
pub(crate) fn open_journal<H: Host>(asked: &Asked, host: &mut H) -> Option<JournalFile<H::File>>
    ensures { MatchOption result (LacksJournal H.lacks asked.now)
        (λ journal. CanBeBehind H.holds asked.now (remaining_of H.File.remaining journal)) }
{
    let Asked::Resume(path, _) = asked else {
        return Some(JournalFile { file: None });
    };
    let file = host.open(path.as_str())?;
    Some(JournalFile { file: Some(file) })
}
