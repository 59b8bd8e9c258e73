//! The texts of the faults.
//!
//! An entry is a line with the fault's number and name, as a command prints them, and lines that are indented: when it
//! is told, what to do, and an example.

/// The texts, in the order of the numbers.
pub const FAULTS: [&str; 9] = [
    BYTES,
    SOURCE,
    IMAGE,
    MACHINE,
    HISTORY,
    WORK,
    SESSION,
    FILES,
    EXECUTABLES,
];

const BYTES: &str = "\
1 Short
    Of the library's `decode`: the bytes end within an instruction.
    To do: hand in more bytes, up to 15. `dis` prints such a byte as `db`.
    Example: C7 F8 09, an XBEGIN without the rest of its distance.
2 NotInSubset
    Of the library's `decode`: the bytes spell no instruction of the subset.
    To do: see `Instructions` in docs/FORMATS.md. `dis` prints such a byte as `db`; a core that comes there stops with #UD
    or not-in-subset.
    Example: 0F 31, RDTSC.
3 LockNotAllowed
    Of the library's `decode`: LOCK stands before an instruction that does not take it, or one without a memory destination.
    To do: leave the prefix away. On a processor this is #UD.
    Example: F0 90, LOCK and NOP.
5 Write
    Standard output takes no more: a full disk, or a pipe whose reader has ended.
    To do: make room, or let the reader read to the end. What was written stands.
    Example: elide dis examples/increment.img > /dev/full
";

const SOURCE: &str = "\
10 BadToken
    On this line of a source stands a character or a number that is no token, or a byte above 7Eh outside of a comment and
    quotes.
    To do: write numbers as 12, 0x1f, 1fh or 101b, a hex number with a digit in front.
    Example: mov eax, 0x
11 BadOperand
    The operands on this line fit no form of the instruction, an expression has more than 16 terms, a LOCK is not allowed, an
    `org` comes a second time or behind an item, or a section, a width of `bits` or an `align` is none that there is.
    To do: say `byte` or `dword` where no register does; see `Source` in docs/FORMATS.md.
    Example: inc [count]
12 UnknownSymbol
    A symbol on this line is defined nowhere; in an `equ` or `resb`, by no `equ` above it.
    To do: look for its label. Upper and lower case differ, and a name that begins with a dot belongs to the label before it.
    Example: jmp strat
13 SymbolTwice
    The symbol on this line is defined above.
    To do: rename one of the two, or begin the name with a dot, so that it belongs to the label before it.
    Example: again: behind another again:
14 Range
    A number or a value on this line is outside of its range, or an item ends more than 268,435,456 bytes from the base or
    past 2^32.
    To do: a byte takes -128 to 255, RET 0 to 65535, other fields -2^31 to 2^32 - 1; `resb` takes no value below 0.
    Example: db 256
15 NotInSubset
    Where this line has its mnemonic or directive stands something else.
    To do: see `Instructions` and `Source` in docs/FORMATS.md; nasm's macros are none of them. `elide dis` shows what a
    compiled program has.
    Example: rdtsc eax
16 ShortJumpTooFar
    A short jump, LOOP or JECXZ on this line leads further than from -128 to 127 bytes.
    To do: leave `short` away; in place of LOOP write `dec ecx` and `jnz`, in place of JECXZ `test ecx, ecx` and `jz`.
    Example: jmp short far, where far stands 200 bytes on
17 NoMemory
    The assembler found no memory, or the source would take more than 12 times its
    bytes and 64 MiB: a line of very many symbols, or names of very many parts.
    To do: give the process more, or make the source smaller.
    Example: ulimit -v 20000; elide asm large.asm
";

const IMAGE: &str = "\
20 Empty
    The program has no bytes.
    To do: give the source an instruction, or the image text a line of digits.
    Example: an image text of the line `image 1 100 0` alone
21 TooLarge
    The program ends above the memory, of an executable with the zeros behind its bytes.
    To do: ask for more by --mem, give the source an `org` further down, or link the executable at a lower address.
    Example: elide run large.asm --in-turn, where the image ends above 65536
22 BadMemorySize
    The size of the memory is no multiple of 4096, below 4096 * (cores + 1), or above 268435456.
    To do: --mem 4096 * (cores + 1) or more; the last 4096 bytes a core are its stack.
    Example: --cores 16 --mem 65536, which needs 69632
23 BadCores
    There are not 1 to 64 cores.
    To do: --cores 1 to --cores 64.
    Example: --cores 0
24 EntryOutsideCode
    A core is to begin at an address that is no byte of the code.
    To do: --entry takes addresses of code, or labels of the section .text; an executable without --entry needs ENTRY in
    its linker script.
    Example: --entry count, a label of data
25 CodeTooLong
    The first line of the image text says more code than there are bytes.
    To do: the third number of `image 1 BASE CODE` is the length of the code, in hex.
    Example: `image 1 100 e` above 13 bytes
26 NoMemory
    There is no memory for the program or for reading it.
    To do: give the process more, or the machine less by --mem.
    Example: ulimit -v 20000; elide run large.img --in-turn --mem 268435456
27 BadImageText
    From this line on the file is no image text.
    To do: the first line is `image 1 BASE CODE`, the others are hex digits, an even number a line; a file that does not
    begin with `image ` is read as a source.
    Example: `image 2 100 e`
";

const MACHINE: &str = "\
40 BadLimits
    A transaction is to read or to write not 1 to 4096 lines, or a core is to have more than 64 stores pending.
    To do: --reads and --writes take 1 to 4096 lines of 64 bytes, --store-buffer 0 to 64 stores.
    Example: --reads 0
41 NoMemory
    There is no memory for the machine.
    To do: give the process more, or the machine less by --mem, --cores, --reads and --writes.
    Example: ulimit -v 20000; elide run examples/increment.img --in-turn --mem 268435456
42 NoSuchCore
    A step of the schedule names a core that the machine does not have.
    To do: ask for more by --cores; cores count from 0.
    Example: --cores 2 --steps \"0 1 2\"
43 NoMemory
    There is no memory for the outcomes of the steps.
    To do: give the process more, or make fewer steps; --in-turn and --random keep no list.
    Example: a schedule of 16,777,216 steps in a process of 100 MB
";

const HISTORY: &str = "\
50 LimitReached
    The board has made all the steps that it can.
    To do: ask for more when it is made; of the library's `Board`.
    Example: a third step of a board that was made for two
51 NoMemory
    There is no memory for the history.
    To do: give the process more, or ask for fewer steps.
    Example: a board for 16,777,216 steps in a process of 50 MB
52 BadSchedule
    From this line on the file is no schedule text.
    To do: the first line is `schedule 1`, `schedule 2` or `schedule 3`, the others are core numbers, from the second form
    on also c*n, in the third also ci, ce and cs; see `Schedules` in docs/FORMATS.md.
    Example: 0,1 in place of 0 1
53 NotARun
    Of the library's `serial`: a history is no run of the program. `replay` never tells it: a board's history is one.
    To do: serialise the history that a board gives.
    Example: an outcome `committed` of a core that began no transaction
54 NoMemory
    There is no memory to read a schedule, or for a serial run.
    To do: give the process more.
    Example: ulimit -v 20000; elide replay examples/increment.img --schedule large.txt
55 BadLimit
    A board is to make no step, or more than 16,777,216.
    To do: a budget times the cores, and a limit of replay and hunt, are 1 to 16777216.
    Example: --cores 4 --budget 5000000
56 TooManySteps
    The word on this line takes the schedule above 16,777,216 steps.
    To do: cut the schedule in parts.
    Example: 0*16777216 1
";

const WORK: &str = "\
60 SpawnRefused
    The system started no thread for a core: it allows no further one, or there is no memory for its stack.
    To do: raise the limit on threads (ulimit -u), give the process more memory, or ask for fewer cores.
    Example: elide threads with 64 cores in a container of 16 threads
61 NoMemory
    There is no memory for the workers or the record.
    To do: give the process more, or ask for a smaller budget.
    Example: --record with a budget of 16,777,216 in a process of 100 MB
";

const SESSION: &str = "\
70 UnknownCommand
    `error 70` of the debugger: a word that is no command, or a line of more than 256 bytes.
    To do: `help` lists the commands.
    Example: STEP 0
71 BadArgument
    `error 71` of the debugger: too many or too few arguments, or one that is no number and no symbol.
    To do: see `Debugger` in docs/FORMATS.md.
    Example: step
72 NoSuchCore
    `error 72` of the debugger: the machine has no such core.
    To do: cores count from 0; --cores says how many there are.
    Example: step 2 of two cores
73 OutOfRange
    A part of memory that is to be printed or checked passes the memory's end, or a core that is to be shown is not there;
    `error 73` of the debugger also where a count is not in its range.
    To do: --dump takes AT:BYTES below --mem, --show four bytes; run and next take 1 to 100000, mem 1 to 256, list 1 to 64;
    back takes as many steps as were made, or fewer.
    Example: --dump 0xffff:2 of a memory of 65536 bytes
74 LimitReached
    `error 74` of the debugger: the session has made 1,000,000 steps.
    To do: begin another session, or go back.
    Example: run 100000 for the eleventh time
75 TooManyBreakpoints
    `error 75` of the debugger: 64 breakpoints are set.
    To do: clear one.
    Example: break 0x140 behind 64 others
76 Read
    Standard input cannot be read. The answers to the lines before it are written.
    To do: look at where it comes from.
    Example: elide debug examples/increment.img < /tmp
77 Write
    Standard output takes no more of the session's answers.
    To do: make room, or let the reader read to the end.
    Example: elide debug examples/increment.img > /dev/full
78 NoMemory
    There is no memory for the answer to `sets`, or for the machine of `back` or `why`.
    To do: give the process more.
    Example: ulimit -v 20000; elide debug large.img
";

const FILES: &str = "\
80 Input
    FILE, or the file of a schedule, cannot be read.
    To do: look at the path and at who may read it.
    Example: elide run nofile.asm --in-turn
81 Output
    The file of --record, or a text of help, cannot be written. What stood at the path is still there.
    To do: make room, or choose a folder that can be written.
    Example: --record /nofolder/schedule.txt
82 TooLong
    A file has more than 671,088,640 bytes, or does not end.
    To do: the image text of the largest memory has fewer.
    Example: elide run /dev/zero --in-turn
83 NoMemory
    There is no memory to read the words of the command line.
    To do: give the process more.
    Example: ulimit -v 3000; elide run examples/increment.img --in-turn
84 BadTest
    Of `test`: a comment `elide:` or `expect:` on this line of a file cannot be read, or what it says does not go together.
    No test of that file is carried out.
    To do: see `Tests` in docs/FORMATS.md.
    Example: ; expect: nothing
85 PageTooLong
    Of `page`: the run has more than 200,000 steps, or its window, where --from or --to is given.
    To do: choose a window of fewer steps by --from and --to, or a lower --limit.
    Example: elide page examples/elision.asm --cores 8 --random 1
";

const EXECUTABLES: &str = "\
90 NotForThisMachine
    FILE is an ELF file, but none of 32 bits, lowest byte first, for the Intel 80386.
    To do: compile with `gcc -m32 -march=i486`, as docs/C.md says; `readelf -h` tells what a file is for.
    Example: gcc prog.c, without -m32
91 Damaged
    FILE is an ELF file, but a header, a segment, the symbol table or a name of one does not lie in it or breaks the form.
    To do: the file was cut off or written over; link it again.
    Example: the first 60 bytes of a program
92 NotAnExecutable
    FILE is an ELF file that is relocatable or shared, or asks for a program interpreter or dynamic linking.
    To do: link it with `-static -nostdlib -no-pie`, and without -shared, -r and -c.
    Example: prog.o
93 NothingToLoad
    FILE is an ELF file, but no loadable segment of it has executable bytes.
    To do: give the program code, and the linker script a segment for it with the flag PF_X, as examples/c/elide.ld does.
    Example: a program of data alone
94 TooHigh
    A loadable segment of the ELF file ends above 268,435,456, the end of the largest memory.
    To do: link it at a lower address: with the linker script examples/c/elide.ld, or by -Wl,-Ttext=0x1000.
    Example: a program that ld puts at 0x08048000 with 256 MiB of zeros behind it
95 Overlap
    A loadable segment of the ELF file begins below the end of one that stands before it in the table.
    To do: let the sections of the linker script stand in ascending order, each behind the end of the one before.
    Example: -Wl,-Ttext=0x1000,-Tdata=0x1000
96 CodeNotInFront
    A segment of the ELF file that is not executable, but has bytes, begins below the end of one that is.
    To do: link with a script that puts all code first, as examples/c/elide.ld does, by -Wl,-T,elide.ld.
    Example: a program linked without a script, whose headers the linker loads in front
97 NoMemory
    There is no memory for the bytes of an ELF file.
    To do: give the process more, or link the segments closer to each other.
    Example: a segment at 0x1000 and one at 0xfffff00 in a process of 100 MB
";
