//! The text with which the page of a record begins.

/// What a reader needs who has the files of a record and no machine; what its run came to stands below it.
pub const PREAMBLE: &str = "A record of one run of a Karma program

program.karmaexec  the program as it was run: a header of 512 bytes, then its words
listing.karma      the same program as text; assembled, it gives the same bytes
readings.tape      what waited for the program, in its order
results.tape       what the program wrote, in its order
permit.txt         what the program was allowed to touch
README.txt         this page

The command `karma replay FOLDER` runs the program again over the readings, under the
permit, with 100000000 steps, 1048576 cells of memory and 65536 writes at most, and
tells what agrees with this record.

How to read the files with no machine left

A tape is a row of items, with nothing before, between or behind them. The first byte
of an item tells its kind. All numbers stand with their least byte first.
  byte 0x4E (N)  then 4 bytes: a number from 0 to 4294967295
  byte 0x44 (D)  then 8 bytes: a real, the 64 bits of a binary double of IEEE 754
  byte 0x43 (C)  then 1 byte: a character by its code
Where another byte stands first, or bytes of an item are missing at the end, the tape
is spoiled from there on.

The header of the program: bytes 0 to 15 are ThisIsKarmaExec and a byte 0. Then stand
numbers of 4 bytes: at 16 how many bytes of code follow the header, at 20 how many
bytes of constants follow the code, at 24 the address of the first command, at 28 the
address at which the stack begins, which grows downwards, and at 32 the processor's
number, 239. Bytes 36 to 511 are 0. The words of the code lie in memory from address
0 on, those of the constants behind them.

The listing has one command or constant a line, in the order of memory: first the
start of the stack, then the words from address 0 on, and last the address of the
first command. Its numbers are decimal.

The permit has lines: register R LEVEL, code LEVEL, constants LEVEL, stack N. At level
0 all is open, at 1 there is no writing, at 2 neither reading nor writing. What no
line names is open; the stack may hold N words. From # on, a line is a comment.

Below stands how the run ended: by itself with halted or exited CODE; spent where its
steps were used up; or fault NUMBER where a step could not be taken, with the address
of its command. Then how many steps were taken, how many items the program took of
the readings, and how many it wrote.

";
