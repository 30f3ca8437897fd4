ghost use Rattle.std.specs.Prelude.{◌≡◌, ◌≤◌, if◌then◌else◌, ℕ, List, [], Some, None, false, length, option_map, IfSome};
ghost use Rattle.std.specs.List.{cons_option};
ghost use Rattle.lif_model.specs.Causes.{HasCause};
ghost use Rattle.lif_model.specs.Parts.{Part};
ghost use Rattle.lif_dir.specs.Batches.{BatchView, parts_of};
ghost use Rattle.il_script.specs.declared.limits.TheConstants.{LONGEST_LINE, LONGEST_PAYLOAD};
ghost use Rattle.il_script.specs.Progress.{Stands, line_given};
ghost use Rattle.host_model.specs.Endings.{IsEarly, HasEndingCause};
ghost use Rattle.host_model.specs.Orders.{quiet_mode};
ghost use Rattle.host_model.specs.Requests.{item_of, reads, left_open};
ghost use Rattle.il_host.specs.Gathering.{stands_open, read_with};
ghost use Rattle.il_host.specs.declared.ending.Ending.TheVariants as ending;
ghost use Rattle.il_host.specs.PlainCommands.{IsFormedRead, IsAlone, IsPlainAsked};
ghost use Rattle.il_host.specs.Run.{Answers, AnswersScript, end_of, item_asked};

use crate::ending::Ending;
use crate::gathering::{Gathering, alone, gather};
use crate::performer::Performer;
use crate::write::write_told;
use il_ports::{Failed, Sink, Source, write_all};
use il_script::{Code, Command, Line, Lines, Payload, Reply, read_line};
use lif_dir::Batch;

/// What a line asks for, where it is not skipped.
#[derive(Clone, Copy)]
pub(crate) enum Asked {
    /// A command, with the bytes of the payload.
    Command(Command),
    /// The batch that was gathered.
    Batch,
    /// Nothing that is understood. The line is answered by this code.
    NoCommand(Code),
}

/// What the text of a line asks for, where it is not skipped and begins no batch.
pub(crate) fn read_text(text: &[u8], payload: &mut Payload) -> Option<Asked>
    requires { length text.now ≤ LONGEST_LINE }
    ensures item { (parts : List Part) → option_map (λ asked. item_asked asked payload.new parts) result ≡ item_of (Some text.now) }
    ensures plain { IfSome result IsPlainAsked }
    ensures alone { IfSome result IsAlone }
{
    match read_line(text, payload) {
        Ok(None) => None,
        Ok(Some(command)) => Some(alone(command)),
        Err(fault) => Some(Asked::NoCommand(Code::from(fault))),
    }
}

/// How the line that was given last reads.
fn read_given(lines: &Lines, line: Line, payload: &mut Payload) -> Result<Option<Command>, Code>
    requires { Stands lines.now line }
    ensures reads { read_with result payload.new ≡ reads (line_given lines.now line) }
    ensures formed { IsFormedRead result }
{
    match line {
        Line::Text => match read_line(lines.text(), payload) {
            Ok(read) => Ok(read),
            Err(fault) => Err(Code::from(fault)),
        },
        _ => Err(Code::LineTooLong),
    }
}

/// Answers what a line asks for, and writes what is told of it.
fn answer<P: Performer, K: Sink>(
    host: &mut P,
    asked: Asked,
    bytes: &[u8],
    batch: &Batch,
    out: &mut K,
    quiet: bool,
) -> (Reply, Result<(), Failed>)
    requires valid { (P.view host.old).valid }
    requires plain { IsPlainAsked asked }
    requires few { length bytes.now ≤ LONGEST_PAYLOAD }
    ensures answers { Answers (item_asked asked bytes.now (parts_of batch.now)) result.0 (quiet_mode quiet) (P.view host.old) (P.view host.new)
        (K.written out.old) (K.written out.new) result.1 }
    ensures sink { HasCause (K.faults out.old) (K.faults out.new) result.1 }
{
    match asked {
        Asked::Command(command) => {
            let reply = host.perform(&command, bytes);
            (reply, write_told(out, host.log(), host.text(), quiet))
        }
        Asked::Batch => {
            let reply = host.perform_batch(batch);
            (reply, write_told(out, host.log(), host.text(), quiet))
        }
        Asked::NoCommand(code) => {
            let reply = Reply::No(code);
            (reply, write_all(out, reply.last_line()))
        }
    }
}

/// What a script asks for at its end: a batch that it leaves open is a bad line.
fn left_open(gathering: Gathering) -> Option<Asked>
    ensures items { (bytes : List ℕ) (batch : BatchView) →
        cons_option (option_map (λ asked. item_asked asked bytes (parts_of batch)) result) [] ≡ left_open (stands_open gathering batch) }
    ensures plain { IfSome result IsPlainAsked }
{
    match gathering {
        Gathering::Outside => None,
        Gathering::Within | Gathering::Spoilt(_) => Some(Asked::NoCommand(Code::BadLine)),
    }
}

/// How a script ends that was answered whole.
fn ended(all_ok: bool) -> Ending
    ensures { result ≡ (if all_ok then ending.AllOk else ending.SomeNotOk) }
{
    if all_ok {
        Ending::AllOk
    } else {
        Ending::SomeNotOk
    }
}

/// Answers the lines of a script, one by one, up to its end or to the first fault of the source or the sink.
pub fn answer_all<S: Source, P: Performer, K: Sink>(
    mut lines: Lines,
    mut payload: Payload,
    mut batch: Batch,
    script: &mut S,
    host: &mut P,
    out: &mut K,
    quiet: bool,
) -> Ending
    requires fresh { lines ≡ record { text = []; begun = []; held = []; taken = 0; ended = false } }
    requires empty { batch ≡ record { parts = []; bytes = [] } }
    requires valid { (P.view host.old).valid }
    ensures valid { (P.view host.new).valid }
    ensures plan { (P.view host.new).plan ≡ (P.view host.old).plan }
    ensures answers { AnswersScript None result (quiet_mode quiet) (P.view host.old) (P.view host.new)
        (S.left script.old) (S.left script.new) (K.written out.old) (K.written out.new) }
    ensures cause { HasEndingCause (end_of result) (S.faults script.old) (S.faults script.new)
        (K.faults out.old) (K.faults out.new) (P.view host.old).state.faults (P.view host.new).state.faults }
    ensures late { IsEarly (end_of result) → ⊥ }
{
    let mut all_ok = true;
    let mut gathering = Gathering::Outside;
    'turns: loop {
        match lines.next(script) {
            Line::End => {
                let Some(asked) = left_open(gathering) else {
                    return ended(all_ok);
                };
                let (reply, written) = answer(host, asked, &[], &batch, out, quiet);
                match written {
                    Ok(()) => {
                        all_ok &= reply.is_ok();
                        return ended(all_ok);
                    }
                    Err(_) => return Ending::SinkFailed,
                }
            }
            Line::Fault => return Ending::SourceFailed,
            Line::Over => return Ending::ScriptTooLong,
            line => {
                let read = read_given(&lines, line, &mut payload);
                let (after, asked) = gather(gathering, read, payload.bytes(), &mut batch);
                gathering = after;
                let Some(asked) = asked else {
                    continue;
                };
                let (reply, written) = answer(host, asked, payload.bytes(), &batch, out, quiet);
                match written {
                    Ok(()) => {}
                    Err(_) => return Ending::SinkFailed,
                }
                all_ok &= reply.is_ok();
            }
        }
    }
}
