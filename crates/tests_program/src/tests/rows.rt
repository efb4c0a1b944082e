//! The worked rows: inputs of the program, with what is written of each.

use crate::tests::program::{lines_of, run_on, words_of};
use crate::tests::same::{same, same_in};
use tests_kit::Machine;

// Behind `$` are the words of a command line, for all rows up to the next. A row has a name, the lines that are read, behind
// `<`, and those that are written, behind `>`.
const ROWS: &str = r#"
$ run
Nothing is answered nothing.
<
>
Two eat by turns.
< join a; join b; conflict a b; hungry a; begin a; hungry b; begin b; finish a; begin b
> joined 0.0; joined 1.1; done; done; done; done; refused not-yet; done; done
The earlier meal wins, and not the earlier hunger.
< join a; join b; conflict a b; hungry b; hungry a; begin b; begin a
> joined 0.0; joined 1.1; done; done; done; refused not-yet; done
A dirty fork serves beside a thinking neighbour.
< join a; join b; conflict a b; hungry b; begin b
> joined 0.0; joined 1.1; done; done; done
Two who eat get no conflict.
< join a; join b; join c; conflict a b; conflict b c; hungry a; begin a; hungry c; begin c; conflict a c
> joined 0.0; joined 1.1; joined 2.2; done; done; done; done; done; done; refused both-eating
A meal has its place by its end.
< join a; join c; hungry a; begin a; hungry c; begin c; finish c; conflict a c; hungry c; begin c; finish a; hungry a; begin a; begin c
> joined 0.0; joined 1.1; done; done; done; done; done; done; done; refused not-yet; done; done; refused not-yet; done
Who leaves takes the conflicts along.
< join a; join b; conflict a b; hungry a; leave a; leave b; neighbours a; neighbours b; begin a
> joined 0.0; joined 1.1; done; done; refused hungry; done; neighbours; neighbours none; done
A name is never given again, and a slot is.
< join a; join b; leave a; join d; hungry a; state a; join a
> joined 0.0; joined 1.1; done; joined 0.2; refused unknown; state none; fault bound
A task has no conflict with itself.
< join a; conflict a a; leave a; conflict a a
> joined 0.0; refused same; done; refused unknown
A conflict that ends lets the neighbour begin.
< join a; join b; conflict a b; hungry a; begin a; hungry b; begin b; separate b a; begin b
> joined 0.0; joined 1.1; done; done; done; done; refused not-yet; done; done
Who is next, and beside whom.
< join a; join b; hungry a; hungry b; next; conflict a b; begin b; neighbours b
> joined 0.0; joined 1.1; done; done; next 0.0; done; refused not-yet; neighbours 0.0
Each fault of a line.
< jump a; join A; join a; join a; hungry z
> fault words; fault name; joined 0.0; fault bound; fault unbound
A hungry task is overtaken once.
< join a; join b; conflict a b; hungry b; hungry a; begin a; finish a; hungry a; begin a; begin b
> joined 0.0; joined 1.1; done; done; done; done; done; done; refused not-yet; done
Nobody is next while one of five round a table eats.
< join a; join b; join c; join d; join e; conflict a b; conflict b c; conflict c d; conflict d e; conflict e a; hungry a; hungry b; hungry c; hungry d; hungry e; begin a; next
> joined 0.0; joined 1.1; joined 2.2; joined 3.3; joined 4.4; done; done; done; done; done; done; done; done; done; done; done; next none
Who withdraws lets the neighbour eat.
< join a; join b; conflict a b; hungry a; hungry b; withdraw a; begin b; hungry a; begin a; finish b; begin a
> joined 0.0; joined 1.1; done; done; done; done; done; done; refused not-yet; done; done
A call in each wrong state.
< join a; begin a; finish a; hungry a; hungry a; begin a; hungry a; leave a
> joined 0.0; refused thinking; refused thinking; done; refused hungry; done; refused eating; refused eating
Only a hungry task withdraws.
< join a; withdraw a; hungry a; withdraw a; state a; begin a; leave a; withdraw a
> joined 0.0; refused thinking; done; done; state thinking; refused thinking; done; refused unknown
Comments, blanks and long names.
< # start; ;   join abcdefghijklmnop ; join abcdefghijklmnopq; state abcdefghijklmnop; next
> joined 0.0; fault name; state thinking; next none
$ run --tasks 1
One task has room.
< join a; join b; hungry b
> joined 0.0; refused full; fault unbound
$ run --conflicts 1
One conflict has room.
< join a; join b; join c; conflict a b; conflict b a; conflict a c; separate a c
> joined 0.0; joined 1.1; joined 2.2; done; refused already; refused no-room; refused apart
$ run --tasks 0
No task is no limit.
<
> fault command
$ run --journal
The journal of two that eat by turns.
< join a; join b; conflict a b; hungry a; begin a; hungry b; begin b; finish a; begin b
> dine 2 64 256; 0 join -> joined 0.0; 0 join -> joined 1.1; 0 conflict 0.0 1.1 -> done; 0 hungry 0.0 -> done; 0 begin 0.0 -> done; 0 hungry 1.1 -> done; 0 begin 1.1 -> refused not-yet; 0 finish 0.0 -> done; 0 begin 1.1 -> done
The journal of a hungry task that is overtaken.
< join a; join b; conflict a b; hungry b; hungry a; begin a; finish a; hungry a; begin a; begin b
> dine 2 64 256; 0 join -> joined 0.0; 0 join -> joined 1.1; 0 conflict 0.0 1.1 -> done; 0 hungry 1.1 -> done; 0 hungry 0.0 -> done; 0 begin 0.0 -> done; 0 finish 0.0 -> done; 0 hungry 0.0 -> done; 0 begin 0.0 -> refused not-yet; 0 begin 1.1 -> done
$ audit
The audit of two that eat by turns.
< dine 2 64 256; 0 join -> joined 0.0; 0 join -> joined 1.1; 0 conflict 0.0 1.1 -> done; 0 hungry 0.0 -> done; 0 begin 0.0 -> done; 0 hungry 1.1 -> done; 0 begin 1.1 -> refused not-yet; 0 finish 0.0 -> done; 0 begin 1.1 -> done
> legal 9; overtakes 0
The audit of a hungry task that is overtaken.
< dine 2 64 256; 0 join -> joined 0.0; 0 join -> joined 1.1; 0 conflict 0.0 1.1 -> done; 0 hungry 1.1 -> done; 0 hungry 0.0 -> done; 0 begin 0.0 -> done; 0 finish 0.0 -> done; 0 hungry 0.0 -> done; 0 begin 0.0 -> refused not-yet; 0 begin 1.1 -> done
> legal 10; overtakes 1
Who begins before the conflict overtakes nobody.
< dine 2 64 256; 0 join -> joined 0.0; 0 join -> joined 1.1; 0 hungry 1.1 -> done; 0 hungry 0.0 -> done; 0 begin 0.0 -> done; 0 finish 0.0 -> done; 0 conflict 0.0 1.1 -> done; 0 hungry 0.0 -> done; 0 begin 0.0 -> refused not-yet
> legal 9; overtakes 0
A refusal that is wrong.
< dine 1 64 256; 0 join -> joined 0.0; 0 hungry 0.0 -> done; 0 begin 0.0 -> refused not-yet
> wrong 3 want done
A journal that is cut behind a line.
< dine 1 64 256; 0 join -> joined 0.0; 0 hungry 0.0 -> done
> legal 2; overtakes 0
No header.
<
> fault header
No task.
< dine 1 0 256
> fault header
A header alone.
< dine 1 64 256
> legal 0; overtakes 0
A zero before a pass.
< dine 1 64 256; 00 join -> joined 0.0
> fault line 1
A pass of more than 32 bits.
< dine 1 64 256; 4294967296 join -> joined 0.0
> fault line 1
Withdraw is no word of the first version.
< dine 1 64 256; 0 join -> joined 0.0; 0 hungry 0.0 -> done; 0 withdraw 0.0 -> done
> fault line 3
Withdraw is a word of the second version.
< dine 2 64 256; 0 join -> joined 0.0; 0 hungry 0.0 -> done; 0 withdraw 0.0 -> done
> legal 3; overtakes 0
There is no third version.
< dine 3 64 256; 0 join -> joined 0.0; 0 hungry 0.0 -> done; 0 withdraw 0.0 -> done
> fault header
The first version has no more than 256 tasks.
< dine 1 257 1024
> fault header
The second version has more.
< dine 2 257 1024
> legal 0; overtakes 0
The second version has no more than 4096 tasks.
< dine 2 4097 1
> fault header
$ race
Two friends eat a hundred times each.
< setup = ["join a", "join b", "conflict a b"]; [[worker]]; repeat = 100; steps = ["eat a"]; [[worker]]; repeat = 100; steps = ["eat b"]
> workers 2; calls 603; meals a 100; meals b 100; settled
Two friends who never eat.
< setup = ["join a", "join b", "conflict a b"]; worker = [{ repeat = 0, steps = ["eat a"] }, { repeat = 0, steps = ["eat b"] }]
> workers 2; calls 3; meals a 0; meals b 0; settled
A meal in single steps, and a look.
< setup = ["join a"]; [[worker]]; steps = ["look a", "hungry a", "begin a", "finish a", "begin a"]
> workers 1; calls 5; meals a 1; settled
A worker that joins and leaves.
< tasks = 2; [[worker]]; repeat = 3; steps = ["join x", "eat x", "leave x"]
> workers 1; calls 15; settled
A name that nobody has in the setup.
< setup = ["join a", "hungry b"]; [[worker]]; steps = ["eat a"]
> fault setup 2 unbound
A name that is taken in the setup.
< setup = ["join a", "join a"]; [[worker]]; steps = []
> fault setup 2 bound
A question in the setup.
< setup = ["next"]; [[worker]]; steps = []
> fault setup 1 words
A name that nobody has in a step.
< [[worker]]; steps = ["eat q"]
> fault worker 0 step 1 unbound
A line feed in a step.
< [[worker]]; steps = ["eat a\nb"]
> fault worker 0 step 1 words
No worker.
< tasks = 1
> fault scenario
Too many tasks.
< tasks = 4097; [[worker]]; steps = []
> fault scenario
A worker that is a number.
< worker = 3
> fault scenario
A key that no scenario has.
< speed = 1; [[worker]]; steps = []
> fault scenario
A step that is a number.
< [[worker]]; steps = [3]
> fault scenario
A key without a value.
< tasks =
> fault toml
"#;

// The status that goes with an output.
fn status_of(output: &str) -> u8 {
    if output.starts_with("wrong ") {
        1
    } else if output.starts_with("fault ") || output.contains("; fault ") {
        2
    } else {
        0
    }
}

fn check_row(rt: &impl Machine, name: &str, words: &str, input: &str, output: &str) {
    let words = words_of(rt, words);
    let (written, status) = run_on(rt, &words, &lines_of(rt, input));
    same_in(rt, name, written.as_slice(), &lines_of(rt, output));
    same_in(rt, name, status, status_of(output));
}

#[test]
fn worked_rows_are_answered(rt: HostRuntime) {
    let (mut words, mut name, mut input) = ("", "", "");
    let mut rows = 0usize;
    for line in ROWS.lines() {
        if let Some(text) = line.strip_prefix("$ ") {
            words = text;
        } else if let Some(text) = line.strip_prefix("<") {
            input = text.strip_prefix(" ").unwrap_or("");
        } else if let Some(output) = line.strip_prefix(">") {
            check_row(
                &rt,
                name,
                words,
                input,
                output.strip_prefix(" ").unwrap_or(""),
            );
            rows = rows.saturating_add(1);
        } else {
            name = line;
        }
    }
    same(&rt, rows, 54);
}
