//! What the help of the program and of each command ends with: what its answer says, the exit
//! statuses and an example.

ghost use Rattle.std.specs.Prelude.{◌≡◌};
ghost use Rattle.csdf_words.specs.Endings.{ending_text};

/// Which text the help of a command ends with.
#[derive(Clone, Copy)]
pub(crate) enum HelpEnding {
    Run,
    Stream,
    Moves,
    Check,
    Repetition,
    Schedule,
    Capacity,
    Dot,
    Explain,
}

/// The text that the help of a command ends with.
pub(crate) fn ending_text<'a>(ending: HelpEnding) -> &'a str
    ensures { result.now ≡ ending_text ending }
{
    match ending {
        HelpEnding::Run => RUN,
        HelpEnding::Stream => STREAM,
        HelpEnding::Moves => MOVES,
        HelpEnding::Check => CHECK,
        HelpEnding::Repetition => REPETITION,
        HelpEnding::Schedule => SCHEDULE,
        HelpEnding::Capacity => CAPACITY,
        HelpEnding::Dot => DOT,
        HelpEnding::Explain => EXPLAIN,
    }
}

pub(crate) const PROGRAM: &str = "\
Without a command, csdf plays the script of the graph file on standard input. A command reads the
graph file from standard input where GRAPH is '-'; './-' is a file of that name.

Exit status: 0 answered, 1 an input was refused, 2 these words were refused, 3 a file, memory or a
run itself failed. With 1 and 3, one line on standard error says why.

Example: csdf capacity graph.toml
tells whether the graph can run for ever in bounded channels, and in which.
csdf COMMAND --help has an example of each command.";

const RUN: &str = "\
Reads DIR/NAME.in for each source NAME of the graph, one token a line, and runs the graph over these
tokens. What an actor writes is computed by its kernel. When the run has ended, the command writes
NAME.out for each sink NAME, and then prints a report. The files go to DIR, or to the folder of
--out, over files that are there.

With --until-dry a run goes on until a source has no more tokens for its next firing, and ends dry.
No actor makes more than 16384000 firings in it: a run that comes to the last period in which none
does, as that of a graph without sources, ends complete.

With --room each channel that has no capacity in the file gets room for its initial tokens and those
of M periods, and at most for 65535 tokens. auto is the greatest M with which no such channel has
more than 4096 tokens of M periods, and at least 1. With more room more firings are made at a time,
and memory holds more.

With --journal the moves of the run are written to FILE, as the table 'script' of a graph file. The
command csdf moves plays them again, of the graph file with FILE at its end. --progress tells on
standard error how many firings were made, in a line that is written over.

Memory holds the tokens that are read and those that the sinks take. A firing leaves nothing else
behind, unless its moves are asked for. More workers pay where two actors or more are heavy: filters
whose single firings take 16,384 products or more, or whose channels hold so many firings that these
take 98,304. All others are made by one worker, however many there are. auto: as many as there are
processors, and at most 8, where two are so, and else one. --progress tells how many these are.

With --json the report is {\"ending\":\"complete\",\"channels\":[..]} on one line, with an object for each
channel, as {\"channel\":\"x\",\"written\":4,\"taken\":4,\"held\":0,\"peak\":2,\"capacity\":2,\"open\":false},
and a fault is an object too.

Exit status: 0 the run has ended (complete, dry, stopped or starved), 1 an input was refused,
2 these words were refused, 3 a file, memory or the run itself failed.

Example: csdf run graph.toml tokens --workers 4 --periods 100
reads tokens/src.in and writes tokens/snk.out, where the graph has a source src and a sink snk.";

const STREAM: &str = "\
Runs the graph over tokens that come one after another, of any length. It computes what csdf run
computes, and memory holds the tokens of a segment alone.

Without DIR the source reads standard input, and the sink writes standard output. There is one of
each at most, and the report goes to standard error. With DIR each source NAME reads DIR/NAME.in, and
each sink NAME writes NAME.out, in DIR or in the folder of --out: files, FIFOs or devices. The report
goes to standard output. --out is refused without DIR.

A token is a line of text, as in a token file (text, also where --format is absent), or a raw sample:
of one byte (u8, or s8 with a sign), of two (s16le, s16be) or of four (s32le, s32be), the lowest byte
first (le) or last (be). A number that is none of the format is written as the nearest one that is,
and the report says how many of these a sink had.

The stream is run in segments of whole periods. What the sinks take in one is written before the
tokens of the next one are waited for. A segment has as many periods as take at most 65536 tokens of
each source and 16384000 firings of each actor, and one at least. With --segment it has so many, or
as many as take at most 1000000 tokens of each source. With --segment 1 the sinks have what a period
gives before the tokens of the next one are waited for. What they get in all is the same.

The stream ends where a source has no more tokens for its next firing, or after the periods of
--periods, which a graph without sources needs. --room is as for csdf run, and auto where it is
absent. --progress tells on standard error how many firings were made, in a line that is written
over. --workers is as for csdf run.

A fault ends the stream too: a line that is no token, a sample that is cut off, a file that cannot be
read or written. What the segments before it gave is written by then. The line or the sample is
counted from 1 over the whole stream.

With --json the report is an object on one line, as that of csdf run, and a fault is an object too.

Exit status: 0 the stream has ended (complete, dry or starved), 1 an input was refused,
2 these words were refused, 3 a file, memory or the run itself failed.

Example: sox in.wav -t raw -e signed -b 16 -c 1 - | csdf stream gain.toml --format s16le > out.raw
filters the samples of in.wav, where the graph has one source and one sink.

Example: csdf stream graph.toml live --segment 1 --out results
reads live/src.in and writes results/snk.out, where the graph has a source src and a sink snk.";

const MOVES: &str = "\
A graph file may have a script: lines such as 'begin src', each of which asks for one move. The
command makes the moves in order, and prints the reply to each. A script shows how tokens and cells
move. It does not compute: a write puts in the tokens that its line gives, where csdf run puts in
what the actor's kernel makes.

Exit status: 0 the script was played, 1 the file was refused, 2 these words were refused, 3 a file
or memory failed. The status is 0 also where single moves were refused.

Example: csdf moves graph.toml
prints 'begin src: ok' for a line 'begin src', where the actor src is able to begin.";

const CHECK: &str = "\
A graph is consistent where some numbers of firings, one for each actor, leave every channel with as
many tokens as before. A consistent graph may still deadlock, for want of initial tokens: the command
does not look at these. csdf capacity answers whether a graph can run for ever.

With --json the answer is {\"consistent\":true,\"actors\":3,\"channels\":2} for such a graph, and a fault
an object too.

Exit status: 0 it is consistent, 1 it is not or is too large, or the file was refused,
2 these words were refused, 3 a file or memory failed.

Example: csdf check graph.toml
prints 'consistent: 3 actors, 2 channels' for a consistent graph of that size.";

const REPETITION: &str = "\
Prints a line 'NAME cycles firings' for each actor in file order. The first number is how often the
actor goes through its phases in a period, the second one how often it fires. The command answers
for a graph that deadlocks too, as csdf check does.

With --json it prints {\"repetition\":[..]} on one line, with an object for each actor, as
{\"actor\":\"src\",\"cycles\":2,\"firings\":4}, and a fault is an object too.

Exit status: 0 answered, 1 there is no such period, or the file was refused, 2 these words were
refused, 3 a file or memory failed.

Example: csdf repetition graph.toml
prints 'src 2 4' where the source src has two phases and makes four firings in a period.";

const SCHEDULE: &str = "\
Prints the firings of a period in order, on each line the actor that fires. That is each time the
first actor in file order that has firings of the period left and is able to fire under the
capacities: the least ones, or those of a run with --room.

The schedule is for as many cells as these capacities add up to. With fewer, a run may end starved.

With --json it prints {\"schedule\":[..]} on one line, with the name of each firing's actor, and a fault
is an object too.

Exit status: 0 answered, 1 the graph or its file was refused, as by csdf capacity, 2 these words
were refused, 3 a file or memory failed.

Example: csdf schedule graph.toml | uniq -c
counts how often an actor fires in a row.";

const CAPACITY: &str = "\
Answers whether the graph can run for ever in bounded channels, period after period. Where it can,
the command prints the least capacity of each channel in file order, and the number of cells. A cell
has place for one token, and all channels share the cells. The answer is for as many cells as the
capacities add up to. Where the file gives fewer, a run may end starved, and csdf explain says so.

Where the graph cannot run for ever, 'deadlock' says that no capacities let it. 'too tight' says
that none do that agree with those in the file.

The first channel in file order gets the least capacity that it can have, then the second one, and so
on. With the channels in another order the total may be less.

With --room the capacities are those of a run with it: each channel that has no capacity in the file
has room for its initial tokens and those of M periods, and at most for 65535 tokens.

With --json it prints {\"capacities\":[..],\"cells\":N} on one line, with an object for each channel, as
{\"channel\":\"x\",\"capacity\":4}, and a fault is an object too.

Exit status: 0 it can, 1 it cannot or is too large, or the file was refused, 2 these words were
refused, 3 a file or memory failed.

Example: csdf capacity graph.toml
prints 'NAME capacity' for each channel, and 'cells N' for the cells that all of them share.";

const DOT: &str = "\
Prints the graph in the language DOT: each actor with its firings in a period, and each channel with
its least capacity, or with that of a run with --room. A dot stands for a token that a channel begins
with, or for as many as the number before it says.

Exit status: 0 answered, 1 the graph or its file was refused, as by csdf capacity, 2 these words
were refused, 3 a file or memory failed.

Example: csdf dot graph.toml | dot -Tsvg > graph.svg
makes a picture of the graph, where Graphviz is installed.";

const EXPLAIN: &str = "\
Says more than the fault line with which another command refuses a graph file. Of a fault of the
file it prints the key, what was found there and what is wanted. Of an unbalanced channel it prints
what the channel asks of its actors, and what those before it ask. Where a run stands still it
prints which actors wait for one another, each for the tokens of a channel or for room in it. Where
the file gives fewer cells than the capacities add up to, it prints for how many the graph is
accepted. Of a graph file that cannot be read it prints whether it is missing, a folder, or may not be
read.

With DIR it looks at DIR/NAME.in too, for each source NAME of the graph. It prints a line for each
of these files that is missing, cannot be read, is too long or has a line that is no token.

Exit status: 0 explained, whatever is wrong with the files, 1 the graph file is too long, 2 these
words were refused, 3 standard input, standard output or memory failed.

Example: csdf explain graph.toml tokens
prints 'accepted: ..' alone where the graph is accepted and nothing is wrong with a token file.";
