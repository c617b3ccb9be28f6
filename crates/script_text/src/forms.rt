ghost use Rattle.std.specs.Prelude.{◌≡◌, ℕ, List, IfOk};
ghost use Rattle.std.specs.Option.{option_map, option_or};
ghost use Rattle.script_text.specs.Words.{words_of};
ghost use Rattle.script_text.specs.Kinds.{file_word, checkpoint_word, turns_word, process_word, address_word, pages_word, perms_word, register_word, dumped_word, words_word, hex_word, all_word};
ghost use Rattle.script_text.specs.Forms.{no_words, one_word, two_words, three_words, four_words, machine_forms, debugger_forms, made_by, command_of};
ghost use Rattle.script_text.specs.Script.{is_comment, meaning_of};
ghost use Rattle.script_text.specs.declared.command.Command.{Command};
ghost use Rattle.script_text.specs.declared.command.Command.TheVariants.{Exec, Load, Asm, Fork, Run, Step, Checkpoint, Restore, Forget, Export, Import, Speculate, Commit, Discard, Promote, PromoteAll, Drop};
ghost use Rattle.script_text.specs.declared.command.Command.TheVariants as command;

use crate::command::{Command, Meaning};
use crate::kinds::{
    address_word, checkpoint_word, dumped_word, file_word, hex_word, is_all, pages_word,
    perms_word, process_word, register_word, turns_word, words_word,
};
use crate::lines::without_return;
use crate::words::{next_word, no_words, one_word, three_words, two_words};
use ovl_io::Bytes;
use std::alloc::{AllocError, Global};

/// The process number that is the one word of a text.
fn one_process(words: &[u8]) -> Option<u16>
    ensures { (make : ℕ → Command) →
        option_map make result ≡ one_word process_word make (words_of words.now) }
{
    process_word(one_word(words)?)
}

/// The process number and the address that are the two words of a text.
#[tactic(auto, using(crate::proofs::Rows::not_two))]
fn process_and_address(words: &[u8]) -> Option<(u16, u64)>
    ensures { (make : ℕ → ℕ → Command) →
        option_map (λ both. make both.0 both.1) result
        ≡ two_words process_word address_word make (words_of words.now) }
{
    let (p, address) = two_words(words)?;
    let p = process_word(p)?;
    Some((p, address_word(address)?))
}

/// The process number and the checkpoint's name that are the two words of a text.
fn process_and_name(alloc: Global, words: &[u8]) -> Result<Option<(u16, Bytes)>, AllocError>
    ensures { IfOk result (λ said. (make : ℕ → List ℕ → Command) →
        option_map (λ both. make both.0 both.1) said
        ≡ two_words process_word checkpoint_word make (words_of words.now)) }
{
    let (p, name) = match two_words(words) {
        Some(words) => words,
        None => return Ok(None),
    };
    let p = match process_word(p) {
        Some(p) => p,
        None => return Ok(None),
    };
    match checkpoint_word(alloc, name)? {
        Some(name) => Ok(Some((p, name))),
        None => Ok(None),
    }
}

// The forms, each by the words behind its first.

/// `exec FILE N`
fn exec(alloc: Global, words: &[u8]) -> Result<Option<Command>, AllocError>
    ensures { IfOk result (λ command. command ≡ two_words file_word turns_word Exec (words_of words.now)) }
{
    let (name, turns) = match two_words(words) {
        Some(words) => words,
        None => return Ok(None),
    };
    let turns = match turns_word(turns) {
        Some(turns) => turns,
        None => return Ok(None),
    };
    match file_word(alloc, name)? {
        Some(name) => Ok(Some(Command::Exec(name, turns))),
        None => Ok(None),
    }
}

/// `load FILE`
fn load(alloc: Global, words: &[u8]) -> Result<Option<Command>, AllocError>
    ensures { IfOk result (λ command. command ≡ one_word file_word Load (words_of words.now)) }
{
    let name = match one_word(words) {
        Some(name) => name,
        None => return Ok(None),
    };
    match file_word(alloc, name)? {
        Some(name) => Ok(Some(Command::Load(name))),
        None => Ok(None),
    }
}

/// `asm FILE`
fn asm(alloc: Global, words: &[u8]) -> Result<Option<Command>, AllocError>
    ensures { IfOk result (λ command. command ≡ one_word file_word Asm (words_of words.now)) }
{
    let name = match one_word(words) {
        Some(name) => name,
        None => return Ok(None),
    };
    match file_word(alloc, name)? {
        Some(name) => Ok(Some(Command::Asm(name))),
        None => Ok(None),
    }
}

/// `fork P`
fn fork(words: &[u8]) -> Option<Command>
    ensures { result ≡ one_word process_word Fork (words_of words.now) }
{
    Some(Command::Fork(one_process(words)?))
}

/// `run N`
fn run(words: &[u8]) -> Option<Command>
    ensures { result ≡ one_word turns_word Run (words_of words.now) }
{
    Some(Command::Run(turns_word(one_word(words)?)?))
}

/// `step P N`
#[tactic(auto, using(crate::proofs::Rows::not_two))]
fn step(words: &[u8]) -> Option<Command>
    ensures { result ≡ two_words process_word turns_word Step (words_of words.now) }
{
    let (p, turns) = two_words(words)?;
    let p = process_word(p)?;
    Some(Command::Step(p, turns_word(turns)?))
}

/// `checkpoint P NAME`
fn checkpoint(alloc: Global, words: &[u8]) -> Result<Option<Command>, AllocError>
    ensures { IfOk result (λ command. command
        ≡ two_words process_word checkpoint_word Checkpoint (words_of words.now)) }
{
    match process_and_name(alloc, words)? {
        Some((p, name)) => Ok(Some(Command::Checkpoint(p, name))),
        None => Ok(None),
    }
}

/// `restore P NAME`
fn restore(alloc: Global, words: &[u8]) -> Result<Option<Command>, AllocError>
    ensures { IfOk result (λ command. command
        ≡ two_words process_word checkpoint_word Restore (words_of words.now)) }
{
    match process_and_name(alloc, words)? {
        Some((p, name)) => Ok(Some(Command::Restore(p, name))),
        None => Ok(None),
    }
}

/// `forget NAME`
fn forget(alloc: Global, words: &[u8]) -> Result<Option<Command>, AllocError>
    ensures { IfOk result (λ command. command ≡ one_word checkpoint_word Forget (words_of words.now)) }
{
    let name = match one_word(words) {
        Some(name) => name,
        None => return Ok(None),
    };
    match checkpoint_word(alloc, name)? {
        Some(name) => Ok(Some(Command::Forget(name))),
        None => Ok(None),
    }
}

/// `export NAME BASE`
fn export(alloc: Global, words: &[u8]) -> Result<Option<Command>, AllocError>
    ensures { IfOk result (λ command. command
        ≡ two_words checkpoint_word checkpoint_word Export (words_of words.now)) }
{
    let (name, base) = match two_words(words) {
        Some(words) => words,
        None => return Ok(None),
    };
    let name = match checkpoint_word(alloc, name)? {
        Some(name) => name,
        None => return Ok(None),
    };
    match checkpoint_word(alloc, base)? {
        Some(base) => Ok(Some(Command::Export(name, base))),
        None => Ok(None),
    }
}

/// `import NEW BASE FILE`
fn import(alloc: Global, words: &[u8]) -> Result<Option<Command>, AllocError>
    ensures { IfOk result (λ command. command
        ≡ three_words checkpoint_word checkpoint_word file_word Import (words_of words.now)) }
{
    let (name, base, file) = match three_words(words) {
        Some(words) => words,
        None => return Ok(None),
    };
    let name = match checkpoint_word(alloc, name)? {
        Some(name) => name,
        None => return Ok(None),
    };
    let base = match checkpoint_word(alloc, base)? {
        Some(base) => base,
        None => return Ok(None),
    };
    match file_word(alloc, file)? {
        Some(file) => Ok(Some(Command::Import(name, base, file))),
        None => Ok(None),
    }
}

/// `speculate P`
fn speculate(words: &[u8]) -> Option<Command>
    ensures { result ≡ one_word process_word Speculate (words_of words.now) }
{
    Some(Command::Speculate(one_process(words)?))
}

/// `commit P`
fn commit(words: &[u8]) -> Option<Command>
    ensures { result ≡ one_word process_word Commit (words_of words.now) }
{
    Some(Command::Commit(one_process(words)?))
}

/// `discard P`
fn discard(words: &[u8]) -> Option<Command>
    ensures { result ≡ one_word process_word Discard (words_of words.now) }
{
    Some(Command::Discard(one_process(words)?))
}

/// `promote P ADDR`
fn promote_page(words: &[u8]) -> Option<Command>
    ensures { result ≡ two_words process_word address_word Promote (words_of words.now) }
{
    let (p, address) = process_and_address(words)?;
    Some(Command::Promote(p, address))
}

/// `promote P all`
fn promote_all(words: &[u8]) -> Option<Command>
    ensures { result ≡ two_words process_word all_word (λ p all. PromoteAll p) (words_of words.now) }
{
    let (p, all) = two_words(words)?;
    let p = process_word(p)?;
    if is_all(all) {
        Some(Command::PromoteAll(p))
    } else {
        None
    }
}

/// `promote P ADDR` or `promote P all`
fn promote(words: &[u8]) -> Option<Command>
    ensures { result ≡ option_or (two_words process_word address_word Promote (words_of words.now))
        (two_words process_word all_word (λ p all. PromoteAll p) (words_of words.now)) }
{
    match promote_page(words) {
        Some(command) => Some(command),
        None => promote_all(words),
    }
}

/// `ADDR Q ADDR`, behind `dedup P`
#[tactic(auto, using(crate::proofs::Rows::not_three))]
fn dedup_of(p: u16, words: &[u8]) -> Option<Command>
    ensures { result ≡ three_words address_word process_word address_word (command.Dedup p)
        (words_of words.now) }
{
    let (address, q, other) = three_words(words)?;
    let address = address_word(address)?;
    let q = process_word(q)?;
    Some(Command::Dedup(p, address, q, address_word(other)?))
}

/// `dedup P ADDR Q ADDR`
fn dedup_page(words: &[u8]) -> Option<Command>
    ensures { result ≡ four_words process_word address_word process_word address_word command.Dedup
        (words_of words.now) }
{
    let (p, behind) = next_word(words)?;
    dedup_of(process_word(p)?, behind)
}

/// `dedup P all Q`
#[tactic(auto, using(crate::proofs::Rows::not_three))]
fn dedup_all(words: &[u8]) -> Option<Command>
    ensures { result ≡ three_words process_word all_word process_word (λ p all q. command.DedupAll p q)
        (words_of words.now) }
{
    let (p, all, q) = three_words(words)?;
    let p = process_word(p)?;
    if is_all(all) {
        Some(Command::DedupAll(p, process_word(q)?))
    } else {
        None
    }
}

/// `dedup P ADDR Q ADDR` or `dedup P all Q`
fn dedup(words: &[u8]) -> Option<Command>
    ensures { result ≡ option_or
        (four_words process_word address_word process_word address_word command.Dedup
        (words_of words.now))
        (three_words process_word all_word process_word (λ p all q. command.DedupAll p q)
        (words_of words.now)) }
{
    match dedup_page(words) {
        Some(command) => Some(command),
        None => dedup_all(words),
    }
}

/// `compact`
fn compact(words: &[u8]) -> Option<Command>
    ensures { result ≡ no_words command.Compact (words_of words.now) }
{
    if no_words(words) {
        Some(Command::Compact)
    } else {
        None
    }
}

/// `ADDR K PERM`, behind `map P`
#[tactic(auto, using(crate::proofs::Rows::not_three))]
fn map_of(p: u16, words: &[u8]) -> Option<Command>
    ensures { result ≡ three_words address_word pages_word perms_word (command.Map p) (words_of words.now) }
{
    let (address, pages, perms) = three_words(words)?;
    let address = address_word(address)?;
    let pages = pages_word(pages)?;
    Some(Command::Map(p, address, pages, perms_word(perms)?))
}

/// `map P ADDR K PERM`
fn map(words: &[u8]) -> Option<Command>
    ensures { result ≡ four_words process_word address_word pages_word perms_word command.Map
        (words_of words.now) }
{
    let (p, behind) = next_word(words)?;
    map_of(process_word(p)?, behind)
}

/// `unmap P ADDR K`
#[tactic(auto, using(crate::proofs::Rows::not_three))]
fn unmap(words: &[u8]) -> Option<Command>
    ensures { result ≡ three_words process_word address_word pages_word command.Unmap (words_of words.now) }
{
    let (p, address, pages) = three_words(words)?;
    let p = process_word(p)?;
    let address = address_word(address)?;
    Some(Command::Unmap(p, address, pages_word(pages)?))
}

/// `drop P`
fn give_up(words: &[u8]) -> Option<Command>
    ensures { result ≡ one_word process_word Drop (words_of words.now) }
{
    Some(Command::Drop(one_process(words)?))
}

/// `regs P`
fn regs(words: &[u8]) -> Option<Command>
    ensures { result ≡ one_word process_word command.Regs (words_of words.now) }
{
    Some(Command::Regs(one_process(words)?))
}

/// `dump P ADDR LEN`
#[tactic(auto, using(crate::proofs::Rows::not_three))]
fn dump(words: &[u8]) -> Option<Command>
    ensures { result ≡ three_words process_word address_word dumped_word command.Dump (words_of words.now) }
{
    let (p, address, count) = three_words(words)?;
    let p = process_word(p)?;
    let address = address_word(address)?;
    Some(Command::Dump(p, address, dumped_word(count)?))
}

/// `poke P ADDR HEX`
#[tactic(auto, using(crate::proofs::Rows::not_three))]
fn poke(alloc: Global, words: &[u8]) -> Result<Option<Command>, AllocError>
    ensures { IfOk result (λ made. made
        ≡ three_words process_word address_word hex_word command.Poke (words_of words.now)) }
{
    let (p, address, bytes) = match three_words(words) {
        Some(words) => words,
        None => return Ok(None),
    };
    let p = match process_word(p) {
        Some(p) => p,
        None => return Ok(None),
    };
    let address = match address_word(address) {
        Some(address) => address,
        None => return Ok(None),
    };
    match hex_word(alloc, bytes)? {
        Some(bytes) => Ok(Some(Command::Poke(p, address, bytes))),
        None => Ok(None),
    }
}

/// `set P REG VALUE`
#[tactic(auto, using(crate::proofs::Rows::not_three))]
fn set(words: &[u8]) -> Option<Command>
    ensures { result ≡ three_words process_word register_word address_word command.Set (words_of words.now) }
{
    let (p, register, value) = three_words(words)?;
    let p = process_word(p)?;
    let register = register_word(register)?;
    Some(Command::Set(p, register, address_word(value)?))
}

/// `break P ADDR`
fn add_break(words: &[u8]) -> Option<Command>
    ensures { result ≡ two_words process_word address_word command.Break (words_of words.now) }
{
    let (p, address) = process_and_address(words)?;
    Some(Command::Break(p, address))
}

/// `unbreak P ADDR`
fn unbreak(words: &[u8]) -> Option<Command>
    ensures { result ≡ two_words process_word address_word command.Unbreak (words_of words.now) }
{
    let (p, address) = process_and_address(words)?;
    Some(Command::Unbreak(p, address))
}

/// `disasm P ADDR W`
#[tactic(auto, using(crate::proofs::Rows::not_three))]
fn disasm(words: &[u8]) -> Option<Command>
    ensures { result ≡ three_words process_word address_word words_word command.Disasm (words_of words.now) }
{
    let (p, address, count) = three_words(words)?;
    let p = process_word(p)?;
    let address = address_word(address)?;
    Some(Command::Disasm(p, address, words_word(count)?))
}

/// `list`
fn list(words: &[u8]) -> Option<Command>
    ensures { result ≡ no_words command.List (words_of words.now) }
{
    if no_words(words) {
        Some(Command::List)
    } else {
        None
    }
}

/// `stats`
fn stats(words: &[u8]) -> Option<Command>
    ensures { result ≡ no_words command.Stats (words_of words.now) }
{
    if no_words(words) {
        Some(Command::Stats)
    } else {
        None
    }
}

/// The command that a first word and the words behind it are, by the forms of the machine.
fn machine_command(alloc: Global, first: &[u8], words: &[u8]) -> Result<Option<Command>, AllocError>
    ensures { IfOk result (λ command. command ≡ made_by machine_forms first.now (words_of words.now)) }
{
    if first == b"exec".as_slice() {
        exec(alloc, words)
    } else if first == b"load".as_slice() {
        load(alloc, words)
    } else if first == b"asm".as_slice() {
        asm(alloc, words)
    } else if first == b"fork".as_slice() {
        Ok(fork(words))
    } else if first == b"run".as_slice() {
        Ok(run(words))
    } else if first == b"step".as_slice() {
        Ok(step(words))
    } else if first == b"checkpoint".as_slice() {
        checkpoint(alloc, words)
    } else if first == b"restore".as_slice() {
        restore(alloc, words)
    } else if first == b"forget".as_slice() {
        forget(alloc, words)
    } else if first == b"export".as_slice() {
        export(alloc, words)
    } else if first == b"import".as_slice() {
        import(alloc, words)
    } else if first == b"speculate".as_slice() {
        Ok(speculate(words))
    } else if first == b"commit".as_slice() {
        Ok(commit(words))
    } else if first == b"discard".as_slice() {
        Ok(discard(words))
    } else if first == b"promote".as_slice() {
        Ok(promote(words))
    } else if first == b"dedup".as_slice() {
        Ok(dedup(words))
    } else if first == b"compact".as_slice() {
        Ok(compact(words))
    } else if first == b"map".as_slice() {
        Ok(map(words))
    } else if first == b"unmap".as_slice() {
        Ok(unmap(words))
    } else if first == b"drop".as_slice() {
        Ok(give_up(words))
    } else {
        Ok(None)
    }
}

/// The same by the forms of the debugger.
fn debugger_command(
    alloc: Global,
    first: &[u8],
    words: &[u8],
) -> Result<Option<Command>, AllocError>
    ensures { IfOk result (λ command. command ≡ made_by debugger_forms first.now (words_of words.now)) }
{
    if first == b"regs".as_slice() {
        Ok(regs(words))
    } else if first == b"dump".as_slice() {
        Ok(dump(words))
    } else if first == b"poke".as_slice() {
        poke(alloc, words)
    } else if first == b"set".as_slice() {
        Ok(set(words))
    } else if first == b"break".as_slice() {
        Ok(add_break(words))
    } else if first == b"unbreak".as_slice() {
        Ok(unbreak(words))
    } else if first == b"disasm".as_slice() {
        Ok(disasm(words))
    } else if first == b"list".as_slice() {
        Ok(list(words))
    } else if first == b"stats".as_slice() {
        Ok(stats(words))
    } else {
        Ok(None)
    }
}

/// The command that a first word and the words behind it are, by the table of forms.
#[tactic(auto, using(crate::proofs::Rows::in_either))]
fn command_of(alloc: Global, first: &[u8], words: &[u8]) -> Result<Option<Command>, AllocError>
    ensures { IfOk result (λ command. command ≡ command_of first.now (words_of words.now)) }
{
    match machine_command(alloc, first, words)? {
        Some(command) => Ok(Some(command)),
        None => debugger_command(alloc, first, words),
    }
}

/// Whether a word starts a comment.
fn is_comment(word: &[u8]) -> bool
    ensures { result ≡ is_comment word.now }
{
    !word.is_empty() && word[0] == b'#'
}

/// What a line is.
pub(crate) fn meaning_of(alloc: Global, line: &[u8]) -> Result<Meaning, AllocError>
    ensures { IfOk result (λ meaning. meaning ≡ meaning_of line.now) }
{
    let (first, words) = match next_word(without_return(line)) {
        Some(parts) => parts,
        None => return Ok(Meaning::Nothing),
    };
    if is_comment(first) {
        return Ok(Meaning::Nothing);
    }
    match command_of(alloc, first, words)? {
        Some(command) => Ok(Meaning::Does(command)),
        None => Ok(Meaning::Outside),
    }
}
