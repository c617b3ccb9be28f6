use elf_loader::ElfError;
use ovl_io::Bytes;

/// Why a command is refused. Addresses are in bytes.
#[derive(Clone, Copy, Debug, PartialEq, Eq)]
pub enum Code {
    /// No process has the number.
    NoProcess,
    /// The process isn't running.
    Ended,
    /// The process is speculating.
    Speculating,
    /// It isn't.
    NotSpeculating,
    /// No checkpoint has the name.
    NoCheckpoint,
    /// One has.
    NameTaken,
    /// A page isn't there; the address at fault.
    Unmapped(u64),
    /// A page is there already; its address.
    Mapped(u64),
    /// All numbers of spaces are taken.
    NumbersUsed,
    /// The pages asked for don't fit.
    Outside,
    /// A page may not be written; the address at fault.
    Forbidden(u64),
    /// The page is on a frame that other pages are on too, or on the zero frame.
    NotAlone,
    /// A page of the process is on the frame already.
    FrameHere,
    /// The pages differ in too many lines; how many would lie in the overlay.
    NotAlike(u32),
    /// The image would be too large; how many bytes it would have.
    TooLarge(u32),
    /// The file isn't taken. Want of memory is no refusal, and has no line.
    Elf(ElfError),
    /// A line of an image's file isn't as one is printed; the first such line, from 1.
    ImageLine(u32),
    /// The bytes of those lines aren't an image.
    BadImage,
    /// A line of an assembler's text is outside the grammar. Here and below: the first such line, from 1.
    AsmLine(u32),
    /// The label of a line stands before it.
    AsmTwice(u32),
    /// A line names a label that isn't there.
    AsmNoLabel(u32),
    /// The label that a line names is outside its immediate's range.
    AsmOutOfReach(u32),
    /// The text has no item.
    AsmEmpty,
    /// It has too many.
    AsmTooMany,
}

/// What came of a command that changes the machine.
#[derive(Debug, Drop)]
pub enum Answer {
    /// It was done.
    Done,
    /// A process was loaded: its number, how many pages it has, and its entry.
    Loaded(u16, u32, u64),
    /// A process was forked: its number, and that of the new one.
    Forked(u16, u16),
    /// A checkpoint was made: of which process, under which name, and its space.
    Saved(u16, Bytes, u16),
    /// A checkpoint was made of an image: under which name, its space, and how many pages it has.
    Imported(Bytes, u16, u32),
    /// Pages were put on the frames of others: how many.
    Shared(u32),
    /// It was refused.
    Refused(Code),
    /// It would need more units than there are: the units that it would come to, and the limit.
    Full(u32, u32),
    /// There is no memory for it. It has no line.
    Memory,
}

/// Why turns ended.
#[derive(Clone, Copy, Debug, PartialEq, Eq)]
pub enum Stop {
    /// As many were taken as were asked for.
    Limit,
    /// No process is running.
    Idle,
    /// The process has ended.
    Ended,
    /// A process reached a breakpoint: its number, and the address.
    Break(u16, u64),
    /// The last turn would have needed more units than there are.
    Full,
}
