// The help, and the room that it tells of.
use std::io;

// The longest tree and the longest output, in bytes, and the room for diagnostics.
pub const TREE: usize = 131072;

pub const OUT: usize = 131072;

pub const DIAGNOSTICS: usize = 65536;

// L, F, C and R, and a table's numbers: sixteen for each entry.
pub const LIMIT: u32 = 4096;

pub const TABLE: usize = 65536;

pub fn show_help(rt: &impl Print) -> io::Result<()> {
    print!(rt;
        "\
slots [-q] FILE..: what the analyser finds in packed trees, in words\n\
\n\
-q leaves out the records of the files behind it. -h or --help prints this help.\n\
The file - is standard input.\n\
\n\
For each file: a line for each record of the output, the diagnostics, and a summary.\n\
In the output a record stands behind all that it owns. Here it is shown before it,\n\
and what it owns is below it, further in, in the order of the text; the number in\n\
front is the record's offset in the output. A shape (SH) is that of the record that\n\
it is below, and the last one the root's: its locals, and for each capture where it\n\
is taken from in the closure around it. A refusal is one line, with the offset of\n\
the record in the tree.\n\
\n\
The last line counts the files: clean (no error), with errors, refused, not read.\n\
The exit status says nothing: it is 0 whatever was found.\n\
\n\
Room: a tree of {TREE} bytes, an output of {OUT} bytes, diagnostics of {DIAGNOSTICS} bytes.\n\
Limits: {LIMIT} each of live locals (L), open frames (F), captures in them (C) and\n\
references kept in them (R). The library for C takes what it is lent.\n"
    )
}
