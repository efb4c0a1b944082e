//! The texts of the help, and the version.

/// The program's version, and the logic that it is proved in, as `rt version` ends with it. Several kits have the same
/// logic, so none is named.
pub const VERSION: &str = "0.1.0 (rattle logic dac8208d650f15bf)";

/// What the program is.
pub const ABOUT: &str = "An arbiter for tasks of which some must not eat at the same time, \
after Chandy and Misra 1984";

/// The end of the help: a first script, and the exit statuses.
pub const FIRST_SCRIPT: &str = "\
A first script: two tasks in conflict, of which the second has to wait.

  printf 'join a\\njoin b\\nconflict a b\\nhungry a\\nbegin a\\nhungry b\\nbegin b\\nfinish a\\nbegin b\\n' | hygienic run

  answers: joined 0.0, joined 1.1, done, done, done, done, refused not-yet, done, done

'hygienic help run' has the lines that a script can have.

The exit status:

  0  all is well
  1  a journal has another reply than the table, or a race is not settled
  2  the command line or the input has a fault
  3  memory ran out, or a read or a write failed

What is wrong with a command line or an input is told on standard error as well, for people. No
program should read it: standard output and the status say all that one needs.";

/// What `run` does.
pub const ABOUT_RUN: &str = "Runs a script, and writes one line for each of its lines";

/// What `race` does.
pub const ABOUT_RACE: &str =
    "Runs a race, each worker in a thread of its own, and writes what came of it";

/// What `audit` does.
pub const ABOUT_AUDIT: &str = "Audits a journal: makes its calls again, and compares their replies";

/// What `serve` does.
pub const ABOUT_SERVE: &str =
    "Answers each line as it comes, and so writes the journal of what was asked";

/// The lines that are served, and what answers them.
pub const SERVED_LINES: &str = "\
An example: printf '0 join\\n7 join\\n7 hungry 1.1\\nstate 1.1\\n' | hygienic serve

The first line that is written is a journal's header. A line that is read is a line of a journal as
far as its call, and it is answered at once by the whole line. So what is written is the journal of
what was asked, and 'hygienic audit' takes it. P is the number of the caller's pass, from 0 to
4294967295, and T and U are the names of tasks that joins were answered:

  P join          a task joins, thinking: 'P join -> joined T'
  P hungry T      a thinking task grows hungry. So with the other calls of a journal: leave T,
                  conflict T U, separate T U, begin T, finish T and withdraw T

A begin that has to wait is refused, and 'P await T' asks for one that is made when its turn comes:

  P await T       'P begin T -> REPLY', as soon as that is no 'refused not-yet'; where as many wait
                  as tasks are allowed, '! N fault full'

Other lines are answered by lines that a filter knows by their first byte:

  P cancel T      '? cancelled T': the first await of T on this pass is taken back; or
                  '? cancelled none', where there is none
  state T         '? state thinking'
  neighbours T    '? neighbours U' and more, or '? neighbours none' where T isn't present
  blockers T      '? blockers U' and more, for whom T waits, or '? blockers none'
  next            '? next T', or '? next none'
  ready           '? ready T' and more, by last meal, or '? ready none'
  anything else   '! N fault words', N being the number of the line, from 1

One space stands between words. Empty lines and lines that begin with # are passed over. A line past
4096 bytes is not kept, and has a fault. A last line without its line feed is not carried out:
'! N fault torn'.

Whenever it waits for more, each line that it has read is answered. It keeps no call, and takes the
same memory however many lines come. A caller that writes many lines and reads no answer stops it,
and then itself, once the pipes are full.

With --passes N a request has a number behind its pass, as '3 17 hungry 1.1', which rises from
request to request of that pass, and passes are those below N. The number of the pass's last request
is answered as before, behind '= ', and changes nothing. An older one is '! N fault stale'.

With --resume JOURNAL the calls of a journal are made first, and each reply is compared. Then each
line is answered as if the program had never ended. The limits are the journal's, and no header is
written, so what is written is the rest of the journal. A last line that lacks its line feed is left
out, up to 4096 bytes. A journal that is not legal is answered as 'hygienic audit' does, and one of
version 1 by 'fault version'; no line is read then.

The status is 0, or 1 where a journal has another reply than the table's, or 2 where the command
line, a line or a journal has a fault, or 3 where memory, reading or writing failed.";

/// The lines of a script, and what answers them.
pub const SCRIPT_LINES: &str = "\
An example: hygienic run examples/first.txt

Lines of a script, in which A and B are names of 1 to 16 letters from a to z and digits:

  join A          a task joins, thinking, and takes the name A, which must be free
  leave A         a thinking task leaves, and its conflicts go with it
  conflict A B    from now on the two tasks never eat at the same time
  separate A B    the two tasks may eat at the same time again
  hungry A        a thinking task grows hungry
  begin A         a hungry task begins to eat, if no neighbour keeps it waiting
  finish A        an eating task thinks again
  withdraw A      a hungry task thinks again without a meal, and keeps its place in the order
  state A         the state of a task
  neighbours A    the tasks that a task is in conflict with
  next            the hungry task that may begin and whose last meal is the earliest

Empty lines and lines that begin with # are passed over. A call is answered 'joined' and the
task's number, 'done', or 'refused' and the reason. A line that cannot be read is answered
'fault' and the kind, and the script goes on.

The status is 0, or 2 where the command line or a line of the script has a fault, or 3 where memory,
reading or writing failed.";

/// The keys of a scenario, and what is written of its race.
pub const SCENARIO_KEYS: &str = "\
An example: hygienic race examples/ring.txt

A race is a scenario in TOML. All keys but 'worker' and its 'steps' may be left out:

  tasks = 64                       how many tasks may be present at once, from 1 to 4096
  conflicts = 256                  how many conflicts may stand at once, from 1 to 65535
  setup = [\"join a\", \"join b\", \"conflict a b\"]

  [[worker]]                       from 1 to 16 of them, which start together after the setup
  repeat = 100                     how often it does its steps, from 0 to 1000000 (else 1)
  steps = [\"eat a\"]

A line of the setup is a call as in a script: join, leave, conflict, separate, hungry, begin,
finish or withdraw, with its names. A step is one of these, or:

  eat A           hungry, begin once its turn has come, and finish. The first refusal ends it
  look A          the state of a task is looked at, and nothing is kept of it

Writes 'workers N', 'calls L', 'meals A N' for each name of the setup, and then 'settled',
'missing K' or 'differs K I'; or the first check that the scenario fails, as 'fault toml', 'fault
scenario', 'fault setup N KIND' or 'fault worker K step N KIND'.

A race waits for ever where a task that others wait for stays hungry or eating.

A race keeps each of its calls until it ends, in some 60 bytes, and writes nothing before: one that
is interrupted has written no line, and no journal.

The status is 0 for a settled race, 1 for another, 2 for a fault, or 3 where memory, reading or
writing failed.";

/// What an audit writes.
pub const AUDIT_LINES: &str = "\
An example: hygienic run --journal examples/first.txt | hygienic audit

Writes two lines for a legal journal, and else one:

  legal L             the journal has L entries, and each reply is that of the table of last meals
  overtakes N         N is the most meals that a task began in one hunger of another while the two
                      were in conflict; it is never more than 1
  wrong N want REPLY  the entry on line N has another reply than the table, whose reply is REPLY
  fault header        the first line is no header
  fault line N        line N is no entry, or lacks its line feed

Lines are counted from 0, the header's. 'hygienic run --journal' writes a journal, whose header
begins with 'dine 2'. One that begins with 'dine 1' is read as it was written: 'withdraw' is no
word of it, and its limits are at most 256 tasks and 1024 conflicts.

The status is 0 for a legal journal, 1 for a wrong one, 2 for a fault, or 3 where memory, reading or
writing failed.";

/// What `chart` does.
pub const ABOUT_CHART: &str = "Draws a journal: who ate when, and who was kept waiting and by whom";

/// What a chart shows.
pub const CHART_LINES: &str = "\
An example: hygienic run --journal examples/turns.txt | hygienic chart > turns.svg

A lane for each task, from the line of the journal at which it joins to that at which it leaves, and
in it its meals, the hunger that a neighbour keeps waiting, and the hunger that may begin. An arrow
goes from the call that gave a task its turn to the begin that took it. Refused calls are marked, and
so are conflicts. To the right stands how many meals a task began, and at how many lines it waited.

A journal has no clock: from left to right go its lines, a step for each call.

A picture has at most 1000 lines and 128 tasks. Of more, 'fault places N' or 'fault lanes N' is
written, with how many there are, and no picture: --from and --to choose the lines. Where they
choose none, it is 'fault places 0'. A journal that is not legal is answered as 'hygienic audit'
does.

--trace has no such bound: it writes the same as events of Chrome's trace format, one after the
other, which ui.perfetto.dev and chrome://tracing open. A task is a thread there, and a line of the
journal is a microsecond. --dot writes the table after the journal's last line, or after that of --to,
as a graph: the tasks that are present and what each does, and an arrow for each conflict, from
whoever goes before.

Of --svg, --html, --trace and --dot the last one counts.

The status is 0 for a picture, a trace or a graph, 1 for a journal with another reply than the
table's, 2 for a fault, or 3 where memory, reading or writing failed.";

/// What `--svg` asks for.
pub const SVG_HELP: &str = "Write an SVG, as is done where nothing else is asked for";

/// What `--html` asks for.
pub const HTML_HELP: &str = "Write a page: the picture, which can be moved there, and a table";

/// What `--trace` asks for.
pub const TRACE_HELP: &str = "Write a trace, for Perfetto or chrome://tracing";

/// What `--dot` asks for.
pub const DOT_HELP: &str = "Write who is in conflict with whom, for Graphviz";

/// What `--from` sets.
pub const FROM_HELP: &str = "The first line of the journal that is drawn";

/// What `--to` sets.
pub const TO_HELP: &str = "The last line of the journal that is drawn";

/// What `--name` gives.
pub const NAME_HELP: &str = "A name for a task, as 0.0=alice; for more than one, again";

/// What `--tasks` sets.
pub const TASKS_HELP: &str = "How many tasks may be present at once, from 1 to 4096";

/// What `--conflicts` sets.
pub const CONFLICTS_HELP: &str = "How many conflicts may stand at once, from 1 to 65535";

/// What `--journal` asks for.
pub const JOURNAL_HELP: &str = "Write the journal of the calls in place of the answers";

/// What `--long` asks for.
pub const LONG_HELP: &str = "Audit a journal of any length, up to its first wrong line";

/// What `--passes` asks for.
pub const PASSES_HELP: &str = "Let the passes below N ask, and number requests, from 1 to 65536";

/// What `--resume` names.
pub const RESUME_HELP: &str = "Go on with the journal in this file, with the limits that it has";

/// What FILE names.
pub const FILE_HELP: &str = "The file to read. Standard input is read where it is left out or is -";

/// What `--quiet` asks for.
pub const QUIET_HELP: &str = "Say nothing on standard error";
