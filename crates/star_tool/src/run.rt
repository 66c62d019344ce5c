// All that the program does, over what is handed in.
ghost use Rattle.std.specs.Prelude.{◌≡◌, ◌≢◌, ◌⊎◌, ◌≤◌, ℕ, List, [], take, true, false, None, Some, IfSome, IfOk, IfErr, IsErr, OnErr};
ghost use Rattle.std.specs.Bool.{OnTrue};
ghost use Rattle.std.specs.Io.KnownBytes.{Appends};
ghost use Rattle.star_io.specs.Faults.{Rose};
ghost use Rattle.command_words.specs.Words.{command_of, HasGoodOptions};
ghost use Rattle.command_words.specs.declared.command.Command.{Command};
ghost use Rattle.star_tool.specs.Commands.{reads, draws, refusal_of};
ghost use Rattle.star_tool.specs.Run.{Tells, IsRefused, IsOutput, Makes, HasReadFault, EndsShort, Reason, is_refusal, Draws, ending, end_of};
ghost use Rattle.star_tool.specs.Seen.{seen};
ghost use Rattle.star_tool.specs.declared.status.Status.{Status};

use crate::output::tell;
use crate::status::Status;
use crate::verbs::audit::audit_output;
use crate::verbs::book::book_output;
use crate::verbs::certify::certify_output;
use crate::verbs::check::check_output;
use crate::verbs::epochs::epochs_output;
use crate::verbs::expect::expect_output;
use crate::verbs::generate::gen_output;
use crate::verbs::make::make_output;
use crate::verbs::merge::merge_output;
use crate::verbs::open_book::open_book_output;
use crate::verbs::reveal::reveal_output;
use crate::verbs::self_test::self_test_output;
use command_words::{Command, Words, WordsError, words_of};
use recovery_pool::Gate;
use star_io::{Sink, Source};
use std::alloc::Global;
use std::thread::Threads;

/// Does what the words ask for.
///
/// The words are those after the program's name. The command reads `input`, and takes a seed of
/// `coins` where it makes reports and no seed is given. Its whole output is made before the first
/// byte of it is told. `rt` starts the threads of the workers that open groups, and each job of
/// theirs passes `gate` first.
pub fn run<R: Threads + Sync, S: Source, C: Source, K: Sink, G: Gate>(
    rt: &R,
    alloc: Global,
    words: &Words,
    input: &mut S,
    coins: &mut C,
    gate: &G,
    out: &mut K,
) -> Status
    // Usage comes exactly where the words give no command, and then nothing is touched.
    ensures usage { result ≡ Status.Usage → command_of words.now ≡ None }
    ensures no_command { command_of words.now ≡ None
        → ((result ≡ Status.Usage) ⊎ (result ≡ Status.NoMemory)) × (input.new ≡ input.old)
        × (coins.new ≡ coins.old) }

    // Done comes only where the whole output was told. An empty one makes no call of `put`.
    ensures done { IfSome (command_of words.now) (λ command. result ≡ Status.Done
        → (text : List ℕ) × IsOutput command (seen S.left S.faults input.old input.new)
        (seen C.left C.faults coins.old coins.new) text
        × Appends (K.told out.old) (K.told out.new) text × (text ≡ [] → out.new ≡ out.old)) }

    // A write failed only where the sink has counted it, and then a front of the output was told.
    ensures write_fault { IfSome (command_of words.now) (λ command. result ≡ Status.WriteFault
        → Rose (K.faults out.old) (K.faults out.new)
        × ((text : List ℕ) × IsOutput command (seen S.left S.faults input.old input.new)
        (seen C.left C.faults coins.old coins.new) text
        × (text ≢ []) × ((n : ℕ) × Appends (K.told out.old) (K.told out.new) (take n text)))) }

    // A read failed only where the object has counted it.
    ensures read_fault { IfSome (command_of words.now) (λ command. result ≡ Status.ReadFault
        → HasReadFault command (seen S.left S.faults input.old input.new)
        (seen C.left C.faults coins.old coins.new)) }

    // Coins are too few exactly where they come to their end behind an input that isn't refused.
    ensures short_coins { IfSome (command_of words.now) (λ command. (have : ℕ) →
        result ≡ Status.ShortCoins have
        → EndsShort command (seen S.left S.faults input.old input.new)
        (seen C.left C.faults coins.old coins.new) have) }

    // Each other status is the refusal of the input, and where there is one, it comes.
    ensures refused { IfSome (command_of words.now) (λ command. is_refusal result ≡ true
        → IsRefused command (seen S.left S.faults input.old input.new) result) }
    ensures found { IfSome (command_of words.now) (λ command. (bytes : List ℕ) (status : Status)
        → Tells command (seen S.left S.faults input.old input.new) bytes →
        refusal_of command bytes ≡ Some status
        → (result ≡ status) ⊎ (result ≡ Status.ReadFault) ⊎ (result ≡ Status.NoMemory)) }

    // Where there is none, it is done or coins are too few, failures and want of memory aside.
    ensures complete { IfSome (command_of words.now) (λ command. (bytes drawn : List ℕ)
        → Tells command (seen S.left S.faults input.old input.new) bytes →
        refusal_of command bytes ≡ None
        → OnTrue (draws command) (C.left coins.old ≡ Some drawn)
        → (result ≡ end_of command drawn) ⊎ (result ≡ Status.ReadFault)
        ⊎ (result ≡ Status.WriteFault) ⊎ (result ≡ Status.NoMemory)) }

    // What stays as it was: the output where none was put, the input of a command that reads
    // nothing, and the coins, unless a seed is drawn behind an input that isn't refused.
    ensures untouched { result ≢ Status.Done → result ≢ Status.WriteFault → out.new ≡ out.old }
    ensures unread { IfSome (command_of words.now) (λ command. reads command ≡ false →
        input.new ≡ input.old) }
    ensures coins { (coins.new ≡ coins.old)
        ⊎ ((command : Command) × (command_of words.now ≡ Some command)
        × Draws command (seen S.left S.faults input.old input.new)
        (seen C.left C.faults coins.old coins.new) result) }

    // No count of faults falls.
    ensures input_later { S.faults input.old ≤ S.faults input.new }
    ensures coins_later { C.faults coins.old ≤ C.faults coins.new }
    ensures out_later { K.faults out.old ≤ K.faults out.new }
{
    match words_of(alloc, words) {
        Ok(command) => run_command(rt, alloc, command, input, coins, gate, out),
        Err(WordsError::Usage) => Status::Usage,
        Err(WordsError::NoMemory) => Status::NoMemory,
    }
}

// Does what a command asks for.
fn run_command<R: Threads + Sync, S: Source, C: Source, K: Sink, G: Gate>(
    rt: &R,
    alloc: Global,
    command: Command,
    input: &mut S,
    coins: &mut C,
    gate: &G,
    out: &mut K,
) -> Status
    requires { HasGoodOptions command }
    ensures usage { result ≢ Status.Usage }
    ensures done { result ≡ Status.Done
        → (text : List ℕ) × IsOutput command (seen S.left S.faults input.old input.new)
        (seen C.left C.faults coins.old coins.new) text
        × Appends (K.told out.old) (K.told out.new) text × (text ≡ [] → out.new ≡ out.old) }
    ensures write_fault { result ≡ Status.WriteFault
        → Rose (K.faults out.old) (K.faults out.new)
        × ((text : List ℕ) × IsOutput command (seen S.left S.faults input.old input.new)
        (seen C.left C.faults coins.old coins.new) text
        × (text ≢ []) × ((n : ℕ) × Appends (K.told out.old) (K.told out.new) (take n text))) }
    ensures read_fault { result ≡ Status.ReadFault
        → HasReadFault command (seen S.left S.faults input.old input.new)
        (seen C.left C.faults coins.old coins.new) }
    ensures short_coins { (have : ℕ) → result ≡ Status.ShortCoins have
        → EndsShort command (seen S.left S.faults input.old input.new)
        (seen C.left C.faults coins.old coins.new) have }
    ensures refused { is_refusal result ≡ true
        → IsRefused command (seen S.left S.faults input.old input.new) result }
    ensures found { (bytes : List ℕ) (status : Status)
        → Tells command (seen S.left S.faults input.old input.new) bytes →
        refusal_of command bytes ≡ Some status
        → (result ≡ status) ⊎ (result ≡ Status.ReadFault) ⊎ (result ≡ Status.NoMemory) }
    ensures complete { (bytes drawn : List ℕ)
        → Tells command (seen S.left S.faults input.old input.new) bytes →
        refusal_of command bytes ≡ None
        → OnTrue (draws command) (C.left coins.old ≡ Some drawn)
        → (result ≡ end_of command drawn) ⊎ (result ≡ Status.ReadFault)
        ⊎ (result ≡ Status.WriteFault) ⊎ (result ≡ Status.NoMemory) }
    ensures untouched { result ≢ Status.Done → result ≢ Status.WriteFault → out.new ≡ out.old }
    ensures unread { reads command ≡ false → input.new ≡ input.old }
    ensures coins { (coins.new ≡ coins.old)
        ⊎ Draws command (seen S.left S.faults input.old input.new)
        (seen C.left C.faults coins.old coins.new) result }
    ensures input_later { S.faults input.old ≤ S.faults input.new }
    ensures coins_later { C.faults coins.old ≤ C.faults coins.new }
    ensures out_later { K.faults out.old ≤ K.faults out.new }
{
    match answer_of(rt, alloc, command, input, coins, gate) {
        Ok(text) => tell(out, &text),
        Err(status) => status,
    }
}

// The output of a command, or why there is none.
fn answer_of<R: Threads + Sync, S: Source, C: Source, G: Gate>(
    rt: &R,
    alloc: Global,
    command: Command,
    input: &mut S,
    coins: &mut C,
    gate: &G,
) -> Result<Vec<u8>, Status>
    requires { HasGoodOptions command }
    ensures output { IfOk result (Makes command
        (seen S.left S.faults input.old input.new) (seen C.left C.faults coins.old coins.new)) }
    ensures reason { IfErr result (Reason command
        (seen S.left S.faults input.old input.new) (seen C.left C.faults coins.old coins.new)) }
    ensures unread { reads command ≡ false → input.new ≡ input.old }
    ensures coins { (coins.new ≡ coins.old) ⊎ Draws command
        (seen S.left S.faults input.old input.new) (seen C.left C.faults coins.old coins.new)
        (ending result) }
    ensures input_later { S.faults input.old ≤ S.faults input.new }
    ensures coins_later { C.faults coins.old ≤ C.faults coins.new }
{
    match command {
        Command::Check => check_output(alloc, input),
        Command::Reveal { epoch, workers } => {
            reveal_output(rt, alloc, epoch, workers, input, gate)
        }
        Command::Make {
            epoch,
            version,
            thresholds,
            seed,
        } => make_output(alloc, epoch, version, &thresholds, seed, input, coins),
        Command::Gen {
            number,
            reports,
            liars,
            workers,
        } => gen_output(rt, alloc, number, reports, liars, workers, gate),
        Command::SelfTest => self_test_output(alloc),
        Command::Expect {
            epoch,
            thresholds,
            seed,
        } => expect_output(alloc, epoch, &thresholds, &seed, input),
        Command::Book { epoch } => book_output(alloc, epoch, input),
        Command::Merge { epoch } => merge_output(alloc, epoch, input),
        Command::OpenBook { epoch, workers } => {
            open_book_output(rt, alloc, epoch, workers, input, gate)
        }
        Command::Certify { epoch } => certify_output(alloc, epoch, input),
        Command::Audit => audit_output(alloc, input),
        Command::Epochs { workers } => epochs_output(rt, alloc, workers, input, gate),
    }
}
