ghost use Rattle.std.specs.Prelude.{◌≡◌, ◌<◌, IfOk, IfSome, option_map};
ghost use Rattle.host_model.specs.Endings.{IsEarly, HasEndingCause};
ghost use Rattle.host_model.specs.Orders.{mode_by};
ghost use Rattle.il_host.specs.Buffers.{IsBlank};
ghost use Rattle.il_host.specs.Run.{AnswersScript, end_of};
ghost use Rattle.il_host.specs.Words.{script_of};

use crate::ending::Ending;
use crate::generating::{GENERATED_ROOM, answer_generated};
use crate::performer::Performer;
use crate::running::answer_all;
use il_ports::{Sink, Source};
use il_script::{Lines, Page, Payload};
use il_words::Generated;
use lif_dir::Batch;
use std::alloc::{AllocError, Global};

/// Memory for the lines of a script and what they carry.
#[derive(Drop)]
pub struct Buffers {
    pub lines: Lines,
    pub payload: Payload,
    /// What `begin` and `commit` put together.
    pub batch: Batch,
    /// A line that is generated.
    pub page: Page,
}

impl Buffers {
    /// All that a script needs, of either kind.
    pub fn new(alloc: Global) -> Result<Buffers, AllocError>
        ensures { IfOk result IsBlank }
    {
        Ok(Buffers {
            lines: Lines::new(alloc)?,
            payload: Payload::new(alloc)?,
            batch: Batch::new(alloc)?,
            page: Page::new(alloc, GENERATED_ROOM)?,
        })
    }
}

/// Answers the script: the one that is generated, or else the one that the source gives.
pub fn answer_script<S: Source, P: Performer, K: Sink>(
    buffers: Buffers,
    generated: Option<Generated>,
    quiet: bool,
    script: &mut S,
    host: &mut P,
    out: &mut K,
) -> Ending
    requires blank { IsBlank buffers }
    requires seed { IfSome generated (λ g. g.seed < 2147483648) }
    requires valid { (P.view host.old).valid }
    ensures valid { (P.view host.new).valid }
    ensures plan { (P.view host.new).plan ≡ (P.view host.old).plan }
    ensures answers { AnswersScript (option_map script_of generated) result (mode_by (option_map script_of generated) quiet) (P.view host.old) (P.view host.new)
        (S.left script.old) (S.left script.new) (K.written out.old) (K.written out.new) }
    ensures cause { HasEndingCause (end_of result) (S.faults script.old) (S.faults script.new)
        (K.faults out.old) (K.faults out.new) (P.view host.old).state.faults (P.view host.new).state.faults }
    ensures late { IsEarly (end_of result) → ⊥ }
{
    match generated {
        None => answer_all(
            buffers.lines,
            buffers.payload,
            buffers.batch,
            script,
            host,
            out,
            quiet,
        ),
        Some(made) => answer_generated(
            buffers.page,
            buffers.payload,
            made.seed,
            made.count,
            host,
            out,
        ),
    }
}
