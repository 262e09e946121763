//! What each kind of line means, and what would mend it. docs/MANUAL.md has the same sentences.

pub(crate) const USAGE: &[u8] =
    b"The command line is not a command of this program. The line shows the commands with their words and options.";

pub(crate) const READ: &[u8] =
    b"The file of this name could not be read. Check the name, and whether you may read the file.";

pub(crate) const TOO_LARGE: &[u8] =
    b"The file of this name is larger than what is read: 1 MiB for a source, 16 MiB for an input. Split an input into several runs.";

pub(crate) const BAD_UTF8: &[u8] =
    b"The source is not UTF-8 from this byte on. Save the file as UTF-8.";

pub(crate) const BAD_CHAR: &[u8] =
    b"No token begins with this character: a . or & that is not doubled, a # that is not part of a binding tag such as <#t>, a backslash in a text before another character than \" or \\, or a character outside the language.";

pub(crate) const NUMBER_TOO_WIDE: &[u8] =
    b"The number is larger than 9223372036854775807, the largest integer of 64 bits.";

pub(crate) const TEXT_OPEN: &[u8] =
    b"The text or the comment that opens here is never closed, or the text has a character that a text may not have. Texts hold printable ASCII.";

pub(crate) const UNEXPECTED: &[u8] =
    b"No program goes on with this token, or the source ends too soon. Something in front of it is missing or left over: look for a semicolon, a parenthesis or a bracket.";

pub(crate) const UNKNOWN: &[u8] =
    b"The name is not declared before this place, or is of another kind than is wanted here; or a template uses a label that the pattern does not name; or a box uses a name that is not a variable or a function there.";

pub(crate) const TWICE: &[u8] =
    b"The name is declared a second time in its scope; or a label stands twice in a variant, a tuple or a template; or a function or a parameter has the name of another one, or of a built-in function. Rename one of the two.";

pub(crate) const ARITY: &[u8] =
    b"The number of parts is wrong: 2 to 64 branches, 2 to 8 patterns, at most 16 arms of a filter, 1 to 16 templates in an arm or behind the arms, 0 to 8 parameters, as many arguments as the function has parameters, and as many values behind out N as the output tuple N has labels.";

pub(crate) const GUARD_TAG: &[u8] =
    b"The guard of a star uses a tag that the exit pattern does not name, or the guard of an arm one that the filter's pattern does not name. Add the tag to the pattern.";

pub(crate) const NO_MAIN: &[u8] =
    b"The source has no outermost net main with a signature. Declare net main (.. -> ..) connect ..;";

pub(crate) const NO_ROUTE: &[u8] =
    b"A record of this variant can come to this part of the network, and the part does not take it. Keep the label that is missing, or add a branch that takes such records.";

pub(crate) const BAD_OUTPUT: &[u8] =
    b"A record of this variant can come out of this net, and its output type does not have it. Add the variant to the signature, or change the network.";

pub(crate) const BAD_LINE: &[u8] =
    b"The line is not a record, or a number is past 64 bits, or a value is nested deeper than 32 or weighs more than 65,536.";

pub(crate) const TWICE_ON_LINE: &[u8] =
    b"The record on this line has the label twice. Remove one of the two.";

pub(crate) const UNTYPED: &[u8] =
    b"The record on this line lacks a label that the input type of main asks for.";

pub(crate) const FUEL: &[u8] =
    b"A call of this box used up its units of work. Raise --fuel, or look for a function that never ends.";

pub(crate) const OVERFLOW: &[u8] = b"An integer passed 64 bits in this box, filter or guard.";

pub(crate) const DIV_ZERO: &[u8] =
    b"This box, filter or guard divided by 0. Test the divisor first.";

pub(crate) const WRONG_KIND: &[u8] =
    b"This box found a value of another kind than it needs, as a text where it adds, or gave a tag something other than an integer.";

pub(crate) const INDEX: &[u8] =
    b"This box asked for an element that is not there, or made a value that is nested too deep or too heavy.";

pub(crate) const DEPTH: &[u8] =
    b"A record did not leave this star within its replicas. Raise --depth, or look for an exit that is never reached.";

pub(crate) const MEMORY: &[u8] =
    b"The program ran out of memory. Use less input, or a smaller --depth or --queue.";

pub(crate) const WRITE: &[u8] =
    b"The output could not be written: the disk is full, or the program that reads it has ended.";

pub(crate) const TOO_DEEP: &[u8] =
    b"This declaration is nested deeper than 64 forms, or has more than 128 parentheses open at once. Move inner parts to nets or functions of their own.";

pub(crate) const LARGE_TREE: &[u8] =
    b"With this net the networks of the source are too large: more than 65,536 nodes together, one higher than 256, or a face of more than 1,024 variants.";

pub(crate) const NAMES: &[u8] = b"Source and input have more than 4,096 different names of labels.";

pub(crate) const VARIANTS: &[u8] =
    b"More than 1,024 variants flow in this net. Labels that only tell cases apart are better replaced by the value of one tag.";

pub(crate) const RECORDS: &[u8] =
    b"The input has more than 1,048,576 records; this line is the first past them. Split the input into several runs.";

pub(crate) const LONG_LINE: &[u8] =
    b"This line of an input that is read in pieces has more than 1,048,576 bytes. Write what is long in it as several records.";

pub(crate) const BAD_EVENT: &[u8] =
    b"The line is none of a trace, or it stands behind the event by which the first fault comes out.";

pub(crate) const NOT_ENABLED: &[u8] =
    b"The line names an event that cannot happen then. The text is the trace of another run: of another source, input, fuel or depth, or it was changed.";

pub(crate) const UNFINISHED: &[u8] =
    b"The text ends before the run does. Its end is missing, as where the run that wrote it was broken off.";
