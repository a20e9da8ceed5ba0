//! What `karma help` prints: the usage of a command and, below it, what the command does. No text has a last line end.

ghost use Rattle.command_line.specs.Help.{IsUsage, IsHelp, IsOverview};

use crate::topic::Topic;

const OVERVIEW: &str = "karma: assembles, lists, runs and files programs of the Karma computer

  karma assemble SOURCE EXECUTABLE  makes an executable of a program's text
  karma list EXECUTABLE             prints the listing of an executable
  karma check EXECUTABLE LISTING    tells whether a listing is an executable's
  karma same FIRST SECOND           tells whether two executables are the same
  karma run EXECUTABLE ...          runs an executable
  karma compare EXECUTABLE ...      compares its runs under two permits
  karma tape show TAPE              prints the items on a tape as lines
  karma tape make TEXT TAPE         makes a tape of such lines
  karma file RECORD SOURCE ...      runs a program and files the whole run
  karma replay RECORD               tells whether a filed run comes out again
  karma help COMMAND                tells more of a command

Exit status: 0 where the command did what was asked, else 1.";

const ASSEMBLE: &str = "Makes an executable of a program's text.

  SOURCE      the file of the text, in the assembler's language
  EXECUTABLE  the file to write; what it held before is replaced when all of
              the new executable is there

It prints `code N` and `constants N`, the words of both, `first N`, the first
instruction, `stack N`, the stack pointer, and `labels N`, how many there are.

Of a text that is not accepted no executable is made. It then prints
`refused Q line L`: the number of the first question that gets a no, 1 to 13,
and the line of the text, or 0 for the whole text; and on the next line what
the question asks.

Exit status: 0 where the executable was written, else 1.";

const LIST: &str = "Prints the listing of an executable: its stack pointer, code, constants and
first instruction as assembler text, without labels. `karma assemble` makes
the same executable of that text.

  EXECUTABLE  the file of the executable

The listing goes to standard output. Where the file is no executable, it
prints `refused Q` instead, the number of the first question that gets a no,
20 to 26, and on the next line what the question asks.

Exit status: 0 where the listing was printed, else 1.";

const CHECK: &str = "Tells whether a listing is that of an executable, to the byte.

  EXECUTABLE  the file of the executable
  LISTING     the file of the listing, as `karma list` prints it

It prints `agrees`, or `differs at line N` and this line as the executable
lists it and as the listing has it. Where the first file is no executable,
it prints `refused Q`: the number of the first question that gets a no.

A listing is also a text that the executable can be made of again, so two
files that agree tell the same.

Exit status: 0 where they agree, else 1.";

const SAME: &str = "Tells whether two executables are the same, by their listings: the listings
of two executables are equal exactly where the executables are.

  FIRST   the file of an executable
  SECOND  the file of another

It prints `same` or `different`. Where a file is no executable, it
prints `refused Q`: the number of the first question that gets a no. Of the
second file nothing is asked where the first is refused.

Exit status: 0 where they are the same, else 1.";

const RUN: &str = "Runs an executable until it ends by itself or has taken all its steps.

  EXECUTABLE       the file of the executable
  --readings TAPE  the tape that the program reads; else it has no readings
  --results TAPE   a file for what it writes, as a tape; else none is kept
  --permit FILE    what the run may touch; else a new permit, all open
  --budget N       the most steps; else 100000000, which is also the most
  --cells N        the cells of memory, 1024 to 1048576; else 1048576
  --writes N       the most results; else 65536, which is also the most
  --trace N        print the first N steps too; else none
  --dump           print the registers and the flags at the end too
  --quiet          do not tell on standard error how far a long run is

N is decimal, octal after 0, or hexadecimal after 0x. A permit file has lines
`register R LEVEL`, `code LEVEL`, `constants LEVEL` and `stack N`; # begins a
comment. LEVEL is 0 (open), 1 (no writing) or 2 (no reading and no writing).

It prints `ending` and how the run ended: `spent`, `halted`, `exited CODE`, or
`fault NUMBER address A layer L`, where L is `machine` or `host`. Then come
`steps N`, `taken N` (readings) and `written N` (results). Of a fault it also
prints what the question asks that got a no, and the command at the address;
`karma help numbers` lists all questions. Before a run it may be refused:
`refused Q`, 20 to 26, 29, 46, 52, or 54 with a line of the permit file.

Exit status: 0 where the program was run, also into a fault, else 1.";

const COMPARE: &str = "Runs an executable on two machines, each under a permit of its own, and tells
whether and where the two runs part.

  EXECUTABLE       the file of the executable
  --first PERMIT   the file of the first machine's permit; it must be given
  --second PERMIT  the file of the second's permit; it must be given
  --readings TAPE  the tape that both read; else they have no readings
  --results TAPE   the tape to write what the first writes to; else it is lost
  --budget N       the most steps; else 100000000, which is also the most
  --cells N        the cells of memory, 1024 to 1048576; else 1048576
  --writes N       the most results; else 65536, which is also the most
  --trace N        print the first N steps of the first machine
  --dump           print what the first machine holds at the end
  --quiet          do not tell how far a long run is

`karma help run` tells what N may be and what a permit file has.

It prints `the same throughout`, or after how many steps the first meets a
permit fault and which, and that the second holds the same there. So it is
where the second permit is at least as open as the first; where it is not, it
says that as well, and the two may differ. Below `under the first permit:`
it tells of the first machine's run what `karma run` tells of a run.

Exit status: 0 where the two runs agree, else 1.";

const TAPE: &str = "Prints the items on a tape as lines of text, or makes a tape of such lines.

  TAPE  the file of the tape, which `make` writes
  TEXT  the file of the lines

A line is `number N`, `real 0x` and sixteen hexadecimal digits with small
letters, the 64 bits of the real, or `character N` with the code in decimal.
One blank stands between two words, and every line has an end.

`show` prints the lines of the items and then, where the tape has a spoiled
end, `spoiled at byte N`: N bytes of items stand before it.

`make` takes at most 65536 items. Where a line is no item's, it prints the
number of the line, counted from 1, and writes no tape.

Exit status: 0 where the lines were printed or the tape was written, else 1.";

const FILE: &str = "Assembles a program, runs it, and files the whole run in a folder.

  RECORD    the folder to make
  SOURCE    the file of the program's text
  READINGS  the tape that the program reads
  PERMIT    the file of the permit; `karma help run` tells what it has

These files stand in the folder:

  program.karmaexec  the executable
  listing.karma      its listing
  readings.tape      the readings
  results.tape       what the run wrote
  permit.txt         the permit
  README.txt         what the folder is

It prints what `karma run` prints. The folder must not be there yet. Opened by
`karma replay`, all of it agrees.

Exit status: 0 where the run was filed, else 1.";

const REPLAY: &str = "Makes a filed run again, and tells whether all comes out as filed.

  RECORD  the folder of the run, as `karma file` makes it

The executable of the folder must have the listing that stands there. It is
run with the readings and under the permit that stand there, and must write
the results that stand there.

The page must end with what the run came to. It prints what agrees and what
does not: the first line or item that differs, as filed and as it is now.

Exit status: 0 where all is as filed, else 1.";

const HELP: &str = "Prints the commands or, with a command's word, all that is told of that
command: its usage, what it does, its operands and options, what holds where
an option is left out, what it prints and its exit status.

  COMMAND  assemble, list, check, same, run, compare, tape, file, replay, help

`karma help tape` tells of `karma tape show` and of `karma tape make`, and
`karma help numbers` lists what the number of each refusal and fault asks.

Operands stand right after the command, in their order. Options stand after
the operands, in any order, each at most once. The value of an option is the
next word, whatever it is.

Exit status: 0 where the help was printed, else 1.";

/// What the tool is, with a line for each command.
pub fn overview() -> &'static str
    ensures { IsOverview result.now }
{
    OVERVIEW
}

/// How a command is written, in a line or two.
pub fn usage(topic: Topic) -> &'static str
    ensures { IsUsage topic result.now }
{
    match topic {
        Topic::Assemble => "karma assemble SOURCE EXECUTABLE",
        Topic::List => "karma list EXECUTABLE",
        Topic::Check => "karma check EXECUTABLE LISTING",
        Topic::Same => "karma same FIRST SECOND",
        Topic::Run => {
            "karma run EXECUTABLE [--readings TAPE] [--results TAPE] [--permit FILE]
    [--budget N] [--cells N] [--writes N] [--trace N] [--dump] [--quiet]"
        }
        Topic::Compare => {
            "karma compare EXECUTABLE --first PERMIT --second PERMIT
    [--readings TAPE] [--results TAPE] [--budget N] [--cells N] [--writes N]
    [--trace N] [--dump] [--quiet]"
        }
        Topic::Tape => "karma tape show TAPE\nkarma tape make TEXT TAPE",
        Topic::File => "karma file RECORD SOURCE READINGS PERMIT",
        Topic::Replay => "karma replay RECORD",
        Topic::Help => "karma help [COMMAND]",
    }
}

/// What a command does, with its operands and options, what it prints and its exit status.
pub fn help_text(topic: Topic) -> &'static str
    ensures { IsHelp topic result.now }
{
    match topic {
        Topic::Assemble => ASSEMBLE,
        Topic::List => LIST,
        Topic::Check => CHECK,
        Topic::Same => SAME,
        Topic::Run => RUN,
        Topic::Compare => COMPARE,
        Topic::Tape => TAPE,
        Topic::File => FILE,
        Topic::Replay => REPLAY,
        Topic::Help => HELP,
    }
}
