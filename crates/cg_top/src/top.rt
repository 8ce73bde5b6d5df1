ghost use Rattle.std.specs.Prelude.{◌≡◌, ◌⊎◌, ◌≤◌, ◌≢◌, Some, None, OnOk, OnErr, IsErrOf, is_some, List as Listed};
ghost use Rattle.cg_base.specs.Counts.{Rose};
ghost use Rattle.cg_io.specs.Asking.{Asking};
ghost use Rattle.cg_io.specs.Held.{Held, appended, AppendsFront};
ghost use Rattle.cg_top.specs.Asking.{asked};
ghost use Rattle.cg_top.specs.declared.replies.Reply.{Reply as Replied};
ghost use Rattle.cg_top.specs.Answer.{Answer, with_file};
ghost use Rattle.cg_top.specs.Top.{text_of, told, held_and_wrote, Loses, IsPrinted, IsCarriedOut, IsAnswered, IsUnread, LeavesFiles};

use crate::replies::{Reply, answer, cannot_write};
use cg_base::Text;
use cg_io::{Files, Sink, WriteFault};
use std::alloc::Global;

/// Puts the lines, each at once.
fn tell<K: Sink>(lines: &[Text], out: &mut K) -> Result<(), WriteFault>
    ensures ok { OnOk result (K.wrote out.new ≡ appended (K.wrote out.old) (text_of lines.now)) }
    ensures failed { IsErrOf result WriteFault.Failed → Rose (K.faults out.old) (K.faults out.new) }
    ensures tells { is_some (K.wrote out.new) ≡ is_some (K.wrote out.old) }
    ensures later { K.faults out.old ≤ K.faults out.new }
{
    for line in lines {
        out.put(line.as_slice())?;
    }
    Ok(())
}

/// Writes the reply's file, where it has one.
#[tactic(auto, using(crate::proofs::CarryLemmas::keeping))]
fn keep<F: Files>(alloc: Global, reply: &Reply, files: &mut F) -> Result<(), WriteFault>
    ensures ok { OnOk result (F.held files.new ≡ with_file reply.now (F.held files.old)) }
    ensures failed { IsErrOf result WriteFault.Failed → Rose (F.faults files.old) (F.faults files.new) × Loses reply.now (F.held files.old) (F.held files.new) }
    ensures memory { IsErrOf result WriteFault.NoMemory → F.held files.new ≡ F.held files.old }
    ensures asked { F.asked files.new ≡ F.asked files.old }
    ensures later { F.faults files.old ≤ F.faults files.new }
{
    match &reply.file {
        Some(file) => files.write(alloc, &file.name, file.bytes.as_slice()),
        None => Ok(()),
    }
}

/// Says that the reply's file can't be written, and gives the status.
fn tell_unwritten<K: Sink>(alloc: Global, reply: &Reply, out: &mut K) -> u8
    ensures status { (result ≡ 3) ⊎ (result ≡ 4) }
    ensures tells { is_some (K.wrote out.new) ≡ is_some (K.wrote out.old) }
    ensures later { K.faults out.old ≤ K.faults out.new }
{
    let Some(file) = &reply.file else {
        return 3;
    };
    let Ok(said) = cannot_write(alloc, &file.name) else {
        return 4;
    };
    match tell(said.lines.as_slice(), out) {
        Ok(()) => 3,
        Err(WriteFault::Failed) => 3,
        Err(WriteFault::NoMemory) => 4,
    }
}

/// Prints the reply's lines, and gives the status.
fn finish<K: Sink>(reply: &Reply, out: &mut K) -> u8
    ensures done { IsPrinted reply.now result (K.wrote out.old) (K.wrote out.new) (Rose (K.faults out.old) (K.faults out.new)) }
    ensures tells { is_some (K.wrote out.new) ≡ is_some (K.wrote out.old) }
    ensures later { K.faults out.old ≤ K.faults out.new }
{
    match tell(reply.lines.as_slice(), out) {
        Ok(()) => reply.status,
        Err(WriteFault::Failed) => 3,
        Err(WriteFault::NoMemory) => 4,
    }
}

/// Writes the reply's file and then prints its lines, and gives the status.
#[tactic(auto, using(crate::proofs::CarryLemmas::carrying))]
fn carry_out<F: Files, K: Sink>(alloc: Global, reply: &Reply, files: &mut F, out: &mut K) -> u8
    ensures done { IsCarriedOut reply.now result (held_and_wrote (F.held files.old) (K.wrote out.old)) (held_and_wrote (F.held files.new) (K.wrote out.new)) (Rose (K.faults out.old) (K.faults out.new)) (Rose (F.faults files.old) (F.faults files.new)) }
    ensures asked { F.asked files.new ≡ F.asked files.old }
    ensures tells { is_some (K.wrote out.new) ≡ is_some (K.wrote out.old) }
    ensures files_later { F.faults files.old ≤ F.faults files.new }
    ensures sink_later { K.faults out.old ≤ K.faults out.new }
{
    match keep(alloc, reply, files) {
        Ok(()) => finish(reply, out),
        Err(WriteFault::Failed) => tell_unwritten(alloc, reply, out),
        Err(WriteFault::NoMemory) => 4,
    }
}

/// Does what the words ask, over these files and this sink, and gives the status
/// (docs/RUNNING.md, "Statuses"). A file is written before anything is printed. Each line is one `put`, and
/// ends with byte 10. Status 4, want of memory, is the one answer that no clause ties to a cause.
pub fn cgen<F: Files, K: Sink>(alloc: Global, words: &[Text], files: &mut F, out: &mut K) -> u8
    // Where no count of faults rose and there was memory, the status is the answer's, its file and its
    // text were written, and just what it reads was asked for.
    ensures headline { (Rose (F.faults files.old) (F.faults files.new) → ⊥) → (Rose (K.faults out.old) (K.faults out.new) → ⊥) → result ≢ 4
        → IsAnswered words.now result (told (F.held files.old) (F.asked files.old) (K.wrote out.old)) (told (F.held files.new) (F.asked files.new) (K.wrote out.new)) }
    // The same holds of any status but 3 and 4, whichever count rose.
    ensures answered { result ≢ 3 → result ≢ 4 → IsAnswered words.now result (told (F.held files.old) (F.asked files.old) (K.wrote out.old)) (told (F.held files.new) (F.asked files.new) (K.wrote out.new)) }
    // Whatever the status, no more was asked for than the first names of what the answer without a
    // fault reads, in its order and with its limits (`some_answer`: there is one).
    ensures front { (held : Held) (reads : Listed Asking) (reply : Replied) → F.held files.old ≡ Some held → Answer words.now (Some held) ⊥ reads reply → AppendsFront (F.asked files.old) (F.asked files.new) reads }
    // Status 2 comes exactly where the words ask nothing, a fault of the sink and want of memory
    // aside.
    ensures asks { result ≡ 2 → asked words.now ≡ None }
    ensures bad { asked words.now ≡ None → (Rose (K.faults out.old) (K.faults out.new) → ⊥) → result ≢ 4 → result ≡ 2 }
    // Status 3 comes exactly where a file that is asked for is lacking or too long, or else only
    // where a count of faults rose.
    ensures cause { result ≡ 3 → IsUnread words.now (F.held files.old) ⊎ (Rose (F.faults files.old) (F.faults files.new) ⊎ Rose (K.faults out.old) (K.faults out.new)) }
    ensures unread { IsUnread words.now (F.held files.old) → (Rose (F.faults files.old) (F.faults files.new) → ⊥) → (Rose (K.faults out.old) (K.faults out.new) → ⊥) → result ≢ 4 → result ≡ 3 }
    ensures status { result ≤ 4 }
    // Whatever the status, the files are as before or as the answer's, but for one whose write failed.
    // Counts of faults never fall, and what told its bytes tells them still.
    ensures files { LeavesFiles words.now (F.held files.old) (F.held files.new) }
    ensures tells { is_some (K.wrote out.new) ≡ is_some (K.wrote out.old) }
    ensures files_later { F.faults files.old ≤ F.faults files.new }
    ensures sink_later { K.faults out.old ≤ K.faults out.new }
{
    let Ok(reply) = answer(alloc, words, files) else {
        return 4;
    };
    carry_out(alloc, &reply, files, out)
}
