//! What help says below options.

pub(crate) const PROGRAM_NOTES: &str =
    "Each command reads standard input and writes standard output: `kroft run < FILE`.
A fault is one line on standard error. `kroft run --help` lists the lines of a trace.

Statuses:
  0  done, or help was asked for
  1  check or explain found an answer that flat memory doesn't explain, grade a wrong prediction, or
     history an answer that its law doesn't allow; or, with --all-answered, check an open load or
     history an open operation
  2  the command line is wrong
  3  the shape or machine file is wrong
  4  the input or the image is wrong, or a stream failed
  5  there is too little memory
  6  history can't tell

Keys of a shape file, a TOML table of whole numbers:
  words        1 to 1048576, a multiple of 4        default 64
  sets         1 to 1024                            default 4
  ways         1 or 2                               default 2
  regs         1, 2, 4 or 8                         default 4
  banks        1 to 16                              default 4
  bank_queue   4 / banks, rounded up, to 64         default 8
  write_queue  4 to 256                             default 8
  replies      1 to 64                              default 8

Keys of a machine file (--machine), such a table with all numbers of a machine:
  block_words  1 to 16                              default 4
  ways         1 to 16                              default 2
  registers    1 to 64                              default 4
  stack        1 to 64                              default 4
  words        1 to 1048576, a multiple of block_words         default 64
  sets, banks, bank_queue, write_queue, replies     as above, with block_words in place of 4

Example:
  $ echo 'load 1 4' | kroft run
  load 1 4 -> accepted";

pub(crate) const RUN_NOTES: &str = "Reads a trace from standard input, one event a line:
  load TAG AT           load the word at AT under a tag
  store AT MASK WORD    store the bytes of a word that the mask names
  prefetch AT           bring the block of a word in
  evict BLOCK           give a block's frame up
  drain                 send the front of the write queue to its bank
  serve BANK            let a bank serve its first command
  arrive BANK PLACE     move a bank's answer into the input stack
  process PLACE         take a word of the input stack
  take PLACE            take a ready value
  reg SLOT              show a miss register
  bank AT               show a word as its bank has it
  settled               show whether nothing is on its way
Writes each line with ' -> ' and its answer behind it.

A tag is 0 to 65535, any other number 0 to 4294967295, with no zero in front. A mask is four
digits 0 or 1, byte 0 first. A word is eight digits 0 to 9 or a to f, byte 0 first. One space
stands between the words of a line, and an LF at its end: no comment, no empty line, no CR.
A line has at most 64 bytes, a trace at most 16777216 lines.

'reg' shows a register as
  V- 0000001 0001 00 [--- 0000 00000 0000 00000000] [1-- 0100 00001 0100 00aa0000] ..
V: it is in use, O: its block was given up; then the block, the frame and how many words of it
were processed. For each word: how many loads wait for it (or -), I: it stands in the input stack,
P: it was processed; the bytes that the arriving word leaves alone; and of the first load that
waits its tag, the bytes that it holds already, and their values.

Memory begins with zeros. With --image address each word begins with its own address, the lowest
byte first: word 4 is 04000000, so a value shows which word it is from. With --image FILE memory
begins with the bytes of the file, in the order of memory, and with zeros behind them; a file that
is longer than memory is refused. A file named address is './address'.

Statuses: 0 all lines were served, 2 the command line is wrong, 3 the machine's file is wrong,
4 a line is faulty, the image can't be read or is longer than memory, or a stream failed,
5 there is too little memory.

Example:
  $ printf 'load 1 4\\nserve 0\\n' | kroft run
  load 1 4 -> accepted
  serve 0 -> moved";

pub(crate) const CHECK_NOTES: &str =
    "Reads lines from standard input as 'run' writes them, from whatever machine or simulator:
a line of a trace ('kroft run --help' explains them), ' -> ', and its answer. The lines:
  load TAG AT, store AT MASK WORD, prefetch AT, evict BLOCK, drain, serve BANK,
  arrive BANK PLACE, process PLACE, take PLACE, reg SLOT, bank AT, settled
The answers:
  accepted, moved, nothing, refused N (1 to 13), value TAG WORD
What follows the ' -> ' of 'reg', 'bank' and 'settled' is passed over. A line has at
most 768 bytes.
Writes 'flat run, N steps', or 'mismatch at line N' for the first line that flat memory
doesn't explain. Flat memory is words with no cache: a load returns the word as it stood when the
load was accepted. Memory begins with zeros, or as the run's did with its --image ('kroft run
--help' describes images); of a shape or machine file only the words matter.
A load that was accepted and never answered is no mismatch. With --all-answered it is a fault: a flat
run that ends with K such loads writes 'flat run, N steps, K loads open: tags T U ..'.
With --format json it is an object: verdict, steps, line (and open, a list).
It is no grader: a flat run may be none of this machine, since most answers ('accepted', 'refused 7',
'moved') are those of some cache. 'kroft grade' compares predictions with the machine's own answers.

Statuses: 0 the run is flat, 1 it isn't (or, with --all-answered, loads are open), 2 the command line is
wrong, 3 the machine's file is wrong, 4 a line is faulty, the image is wrong or a stream failed, 5 there
is too little memory.

Example:
  $ echo 'take 0 -> value 1 00000000' | kroft check
  mismatch at line 1";

pub(crate) const SWEEP_NOTES: &str =
    "Reads a trace from standard input ('kroft run --help' lists its lines), and keeps its
  load TAG AT, store AT MASK WORD, prefetch AT and evict BLOCK
The other lines are passed over: drain, serve BANK, arrive BANK PLACE, process PLACE, take PLACE,
reg SLOT, bank AT, settled.
Writes a row for 1, 2, 4 and 8 registers, or for those of --registers N,.., each more than the one
before it: how many requests were accepted, denied and stalled,
how many pumps the stalled ones waited for, and how many pumps and values there were in all.
A pump is one step of the machine's own driver: it counts work, and not time, and stalled
requests wait one after another. So on a long trace the rows hardly differ. The number of registers
of a shape or machine file isn't used; all its other numbers are.
With --latency L the requests are driven in rounds instead ('kroft drive --help' describes them),
and each row has 'regs N' and the counts of 'drive --latency L --summary' with N registers; with
--busy B those of 'drive --latency L --busy B --summary'. With several latencies, each more than
the one before it, the requests are driven with each in turn, and 'latency L' goes before each row.
With --format csv a line of names goes before the rows, which are figures alone; with --format json
each row is an object on one line. The names are those of the text. With --svg the rounds
are drawn by the number of registers, a line for each latency, as a figure that a browser shows. With
--log its axis of rounds is logarithmic: the same share of the rounds is saved where lines fall alike.
If requests were denied, the figure says how many, and so does a line on standard error.

Statuses: 0 done, 2 the command line is wrong, 3 the machine's file is wrong, 4 a line is faulty or a
stream failed, 5 there is too little memory. (The limit of turns that a sweep has for callers
with a gate of their own can't be reached here: the program's gate is always open.)

Example:
  $ echo 'load 1 0' | kroft sweep
  regs 1 accepted 1 denied 0 stalled 0 waited 0 pumps 13 values 1
  regs 2 accepted 1 denied 0 stalled 0 waited 0 pumps 13 values 1
  regs 4 accepted 1 denied 0 stalled 0 waited 0 pumps 13 values 1
  regs 8 accepted 1 denied 0 stalled 0 waited 0 pumps 13 values 1";

pub(crate) const EXPLAIN_NOTES: &str =
    "Reads lines from standard input as 'check' does ('kroft check --help' describes them), up to the
first line that flat memory doesn't explain, and says why: which load the value belongs to,
what it must return, and which lines stored its bytes. A faulty line ends it too. On a pipe that is
still being written the answer comes with the line; a run may have any number of lines.
Writes 'flat run, N steps', or 'mismatch at line N: LINE' and its reason, in at most seven lines.
With --format json it is an object: the line, its event and answer, the reason by a name, its numbers,
and the lines that each byte comes from.
Memory begins with zeros, or as the run's did with its --image ('kroft run --help' describes images);
of a shape or machine file only the words matter.

Statuses: 0 the run is flat, 1 it isn't, 2 the command line is wrong, 3 the machine's file is wrong,
4 a line is faulty, the image is wrong or a stream failed, 5 there is too little memory.

Example:
  $ echo 'take 0 -> value 1 00000000' | kroft explain
  mismatch at line 1: take 0 -> value 1 00000000
  tag 1 is owed nothing: it was never loaded";

pub(crate) const GRADE_NOTES: &str =
    "Reads a sheet from standard input: a trace ('kroft run --help' lists its lines) whose lines may have
' -> ' and a predicted answer behind them:
  accepted, moved, nothing, refused N (1 to 13), value TAG WORD
  accepted hit, accepted join, accepted miss   the request's word is at hand, is on its way, or no
                                               frame holds its block; --strict asks for this
  ?                                            open: nothing is predicted yet
Behind 'reg', 'bank' and 'settled' stands what 'run' would show, as any printable text. A line without
' -> ' is served, and nothing is asked of it. A line has at most 768 bytes, and 64 before its ' -> '.
Empty lines, lines that begin with '#', and blanks and a CR at a line's end say nothing. The last line
may lack its LF. An answer that can't be read is wrong. The machine runs on by its own answers, whatever
was predicted.
Writes each wrong line with its number, and below it what the answer is, and why, in the words that
'kroft show' has for this step; and at the end how many of all predictions are right, and how many
are open. What is open isn't wrong. With an image ('kroft run --help' describes them) the values are
those that memory has.
With --format csv a line of names goes before a row with the score alone. With --format json each wrong
line is an object; the score is the last of them, and their 'kind' tells it apart.
With --solve each '?' is filled with the whole answer, and nothing else of the sheet changes.
With --sheet what was handed in is read, and each '?' of the sheet is a point. A line that is handed in is
the sheet's next one with its command. What is passed over before it is left out, and so is an answer that
isn't there: that is wrong, and 'accepted' alone is, too. A line that the rest of the sheet doesn't have is
named, and counts as wrong.

Statuses: 0 no prediction is wrong, 1 some are, 2 the command line is wrong, 3 the machine's file is wrong,
4 a line is faulty, the sheet or the image is wrong or a stream failed, 5 there is too little memory.

Example:
  $ printf 'load 1 4 -> accepted hit\\nload 2 5 -> accepted join\\n' | kroft grade
  line 1: load 1 4 -> accepted hit
    is accepted miss: a miss: a register is taken, and block 1's words are asked for
  1 of 2 right, 0 open";

pub(crate) const DRIVE_NOTES: &str =
    "Reads a trace from standard input ('kroft run --help' lists its lines), keeps its
  load TAG AT, store AT MASK WORD, prefetch AT and evict BLOCK
and makes rounds over a new machine until all are accepted or denied and nothing is on its way.
A round makes, in this order:
  each bank, by number, that has a command and isn't busy begins it, and one begun L rounds
  before is served; one answer arrives, from the next bank that has one, if the stack has room;
  'process 0', 'take 0' and 'drain', each if possible; the request at hand is asked once
A request that is accepted, or refused with 1, 2 or 11, is followed by the next one; one that is
refused with 3 to 10 is asked again in the next round. A round is a step of this schedule, and no
time of any hardware.
A bank is busy until it has served its command. With --busy B, fewer rounds than L, it is a pipeline:
it begins its next command B rounds behind the last one that it began, or later, and serves each
of them L rounds behind its begin.
Writes each request with its answer, and each other event that did something, as 'check' reads
them. Before a run of more than 16777216 lines, which 'check' doesn't read whole, it tells so in a line
on standard error, 'note: ..', and writes the run all the same; 'explain' reads any number of lines.
With --summary, in their place, one line of counts: rounds, the last of which moves nothing;
requests accepted and denied; of those accepted how many found their word at hand (hits) or on its
way (joins), or asked for its block (misses); requests that stalled; rounds lost by each cause;
loads answered, their mean and longest wait in rounds; the most registers in use at once; words
written back. With --format csv the counts stand in a line behind one of names, with --format json
they are an object; the names are those of the text, and 'lost_7_no_register' is 'lost 7'. With --svg
the lost rounds are drawn, a bar for each cause, as a figure that a browser shows. If requests were
denied, the figure tells how many, and so does a line on standard error. An image ('kroft
run --help' describes them) changes the values of the run, and no count.
With --all a line follows for each of these: loads, stores and prefetches that were accepted, with
their hits, joins and misses; the mean and longest wait of answered loads from the round that first
asked for them; hits, joins and misses by set; rounds by the registers in use at their end, and by
the loads outstanding; and answered loads by their wait, from acceptance and from the first asking
(0 rounds, 1, 2 to 3, 4 to 7, .., each named by its least). Here --format csv writes lines
'name,index,value', and --format json arrays. All of it counts words: an access to two words is two
requests.
With --log FORMAT a log of accesses is read in place of a trace ('kroft requests --help' describes its
formats and faults), over the words of the machine: the requests are those that 'requests' writes. Then
--summary --all counts the log's accesses too, and reads and writes apart: each is as its worst word, a
miss if any of its words missed, else a join if any joined, else a hit. A modification is one read.
A log with a fault isn't driven in part, as it is if 'requests' reads it in front of a pipe.
With --timeline --svg the first 16 requests are driven, and drawn by rounds, a row each: a dashed bar
from the round that first asked a request to the one that accepted it, and of a load another one up
to its value, coloured by what it found. Other requests have a bar of one round there. A thin bar goes
from a miss to its block's fill, or to the round in which the block lost its frame. With --beside FILE
the same requests go through a second machine, drawn below in the same rounds.

Statuses: 0 done, 2 the command line is wrong, 3 the machine's file is wrong, 4 a line is faulty, the
image is wrong or a stream failed, 5 there is too little memory.

Example:
  $ echo 'load 1 0' | kroft drive
  load 1 0 -> accepted
  serve 0 -> moved
  serve 1 -> moved
  serve 2 -> moved
  serve 3 -> moved
  arrive 0 0 -> moved
  process 0 -> moved
  take 0 -> value 1 00000000
  arrive 1 0 -> moved
  process 0 -> moved
  arrive 2 0 -> moved
  process 0 -> moved
  arrive 3 0 -> moved
  process 0 -> moved";

pub(crate) const REQUESTS_NOTES: &str =
    "Reads a log of a program's memory accesses from standard input, and writes its requests, as
'drive' and 'sweep' read them: 'load TAG AT' and 'store AT MASK WORD'.
  lackey  what 'valgrind --tool=lackey --trace-mem=yes' writes: ' L ADDRESS,SIZE' is a load,
          ' S ADDRESS,SIZE' a store, ' M ADDRESS,SIZE' a load and then a store; a size is 1 to 512
  din     Dinero's: '0 ADDRESS' is a load and '1 ADDRESS' a store of the address's whole word
Addresses are hexadecimal, with small letters and below 2^64. The machine is a data cache, so the
fetches of instructions ('I  ADDRESS,SIZE', '2 ADDRESS') are passed over; so are valgrind's own
lines, which begin with '==', '--' or '**'. A line has at most 768 bytes. A log may
have any number of lines.

One line is written for each word of 4 bytes that an access touches, ascending. Tags go from 0 to
65535, and again from 0. A log has no data: a stored byte is its address and the number of the
line, added, modulo 256; bytes that the mask leaves out are 00. Each page of 4096 bytes becomes
1024 words of memory, in the order of first touch. With --words N memory has N words, rounded down
to whole pages; the first page that has no room ends the work, and the fault says which N would do.
Give 'drive' and 'sweep' a shape or machine with as many words.

Statuses: 0 done, 2 the command line is wrong, 4 a line is faulty, a page has no room or a stream
failed, 5 there is too little memory. What is due for the lines before a fault is written.

Example:
  $ echo ' M 04222cac,4' | kroft requests --from lackey
  load 0 811
  store 811 1111 adaeafb0";

pub(crate) const SHOW_NOTES: &str =
    "Reads a trace from standard input ('kroft run --help' lists its lines) and applies its events, 10000
at most, to a new machine. Lines that only show something are passed over. Lines as 'run' and 'drive'
write them, with ' -> ' and an answer, are read too: an answer that isn't the machine's is marked.
Writes a page of HTML, which needs no other file and no network: the machine before the first
event and behind each, with what the event changed, and why, in words. Left and right, Home and
End step through it, and the space bar plays.
With --text, in its place, lines of at most 80 columns for a terminal: what each step changed, marked
by *, and the whole machine each 100 events and at the end. With --vcd, a waveform (a value change
dump) with one unit of time an event. With --svg, a figure of the first 16 requests by events, a row
each, with the machine's answers: a dashed bar while a request is refused and asked again, then one to
a load's value, and a thin one to the fill of the block that a miss sent for, or to the loss of its
frame. What isn't over ends with the last event. What is left out is told on standard error, too.
A page has some 50 to 350 bytes an event, and 630 for a miss. It shows the first 256 words of memory.
Memory begins with zeros, or with an image ('kroft run --help' describes them).

Statuses: 0 done, 2 the command line is wrong, 3 the machine's file is wrong, 4 a line is faulty, there
are too many events, the image is wrong or a stream failed, 5 there is too little memory.

Example:
  $ echo 'load 1 4' | kroft show --text
  step 0: the machine before the first event

  step 1: load 1 4 -> accepted
    a miss: a register is taken, and block 1's words are asked for
  * register 0         valid, block 1, frame 2, words came: 0
  *   word 0           missing
  *     load           tag 1 is owed 00000000
  *   word 1           missing
  *   word 2           missing
  *   word 3           missing
  * frame 2            block 1, pending
  *   word 0           00000000
  *   word 1           00000000
  *   word 2           00000000
  *   word 3           00000000
  * bank 0 command 0   read place 1: register 0, word 0
  * bank 1 command 0   read place 1: register 0, word 1
  * bank 2 command 0   read place 1: register 0, word 2
  * bank 3 command 0   read place 1: register 0, word 3";

pub(crate) const HISTORY_NOTES: &str = "Reads a history from standard input, one event a line:
  load-request ID ADDRESS LENGTH             a load of LENGTH bytes from ADDRESS on is asked for
  load-response ID BYTES                     it is answered
  store-request ID ADDRESS BYTES [ENABLES]   a store of the bytes that are enabled is asked for
  store-response ID                          it is answered
Numbers are below 2^64, decimal with no zero in front, or hexadecimal behind 0x. BYTES are 1 to 64
bytes in the order of memory, two digits each, 0 to 9 or a to f; ENABLES is a digit 0 or 1 for each
byte, the first byte's first. One space stands between the words of a line, and an LF at its end.
Blank lines and lines that begin with # are passed over. A line has at most 768 bytes; a history
may have any number of lines.

An operation is open from its request to its response, and took effect somewhere between. Loads and
stores are numbered apart; a number is free again after the response.
  flat      it took effect at its request, so a load returns what stands there then
  atomic    there is one moment for it between request and response, in each aligned unit of bytes
            that it touches, and a load gets what stands there at its moment
  regular   each byte of a load is one that a store left there, and that was not overwritten before
            the load was asked for, or what memory had before the first store

Writes 'history of N events is ' and the law, and ', K operations open' behind it if some are; or
'line N: ' and why the event of that line is none of the law. The lines behind it are not judged.
If operations may have taken effect in too many orders, the atomic law can't tell: 'line N:
undecided: ', why, and in which unit.

With --values each line is written as well, and behind the response of an open load ' ->' and a space
and a set for each byte: the bytes that it may be with a | between them, or ?? if it may be any.
With --format json what is found is an object; it doesn't go with --values.
With --shrink the history is read from that file, twice. If it is refused, a short one is written that
is refused for the same answer. A comment has the number of each line, and each operation has its bytes
of one unit alone. Of any other history nothing is written. The status is as without it.
It goes with neither --values nor --format.

Statuses: 0 the history is one of the law, 1 it isn't (or, with --all-answered, operations are
open), 2 the command line is wrong, 4 a line is faulty, a file can't be read or a stream failed, 5
there is too little memory, 6 it can't tell.

Example:
  $ printf 'load-request 7 0x1000 1\\nload-response 7 5a\\n' | kroft history
  line 2: load 7 returned 5a at 0x1000, which may be 00 (memory at first)";
