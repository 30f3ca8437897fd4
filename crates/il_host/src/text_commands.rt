ghost use Rattle.std.specs.Prelude.{◌≡◌, ◌≤◌, [], length, replicate};
ghost use Rattle.lif_model.specs.Apply.{Store};
ghost use Rattle.lif_dir.specs.Entries.{name_bytes};
ghost use Rattle.lif_dir.specs.Names.{made_name};
ghost use Rattle.il_script.specs.declared.limits.TheConstants.{LONGEST_PAYLOAD};
ghost use Rattle.il_script.specs.declared.command.Command.TheVariants.{Put};
ghost use Rattle.il_script.specs.declared.reply.Code.TheVariants.{NotText};
ghost use Rattle.host_model.specs.Requests.{Asks, NoCommand, OfVolume, Get, text_type, item_for};
ghost use Rattle.il_host.specs.HostView.{Performed};

use crate::host::Host;
use crate::listing::put_text;
use crate::performer::Performer;
use il_ports::Medium;
use il_script::{Code, Reply};
use lif_dir::{Name, NewName};

/// The type of a text file.
pub(crate) const TEXT_TYPE: u16 = 1;

impl<M: Medium + Drop> Host<M> {
    /// Stores the text of the lines that a payload has. Where one is too long no frame is sent.
    pub(crate) fn put(&mut self, name: &NewName, payload: &[u8]) -> Reply
        requires valid { (⟦<Host<M> as Performer>⟧.view self.old).valid }
        requires blank { (⟦<Host<M> as Performer>⟧.view self.old).text ≡ [] }
        requires few { length payload.now ≤ LONGEST_PAYLOAD }
        ensures { Performed (item_for (Put name.now) payload.now) result (⟦<Host<M> as Performer>⟧.view self.old) (⟦<Host<M> as Performer>⟧.view self.new) }
    {
        match self.text.fill(payload) {
            Ok(()) => self.store_text(name),
            Err(_) => self.refuse_text(),
        }
    }

    /// Stores the text that was made.
    fn store_text(&mut self, name: &NewName) -> Reply
        requires valid { (⟦<Host<M> as Performer>⟧.view self.old).valid }
        requires blank { (⟦<Host<M> as Performer>⟧.view self.old).text ≡ [] }
        ensures { Performed (Asks (OfVolume (Store (name_bytes (made_name name.now)) text_type (replicate 4 0) self.old.text))) result (⟦<Host<M> as Performer>⟧.view self.old) (⟦<Host<M> as Performer>⟧.view self.new) }
    {
        self.volume.begin();
        if let Err(trouble) = self.prepare() {
            return self.faulted(trouble);
        }
        let answer = self
            .volume
            .store(name, TEXT_TYPE, [0; 4], self.text.bytes());
        self.ended(answer)
    }

    /// Lines that are no text: nothing is done.
    fn refuse_text(&mut self) -> Reply
        requires valid { (⟦<Host<M> as Performer>⟧.view self.old).valid }
        requires blank { (⟦<Host<M> as Performer>⟧.view self.old).text ≡ [] }
        ensures { Performed (NoCommand NotText) result (⟦<Host<M> as Performer>⟧.view self.old) (⟦<Host<M> as Performer>⟧.view self.new) }
    {
        self.volume.begin();
        self.answered(Reply::No(Code::NotText))
    }

    /// Tells the lines of a text file.
    pub(crate) fn get(&mut self, name: &Name) -> Reply
        requires valid { (⟦<Host<M> as Performer>⟧.view self.old).valid }
        requires blank { (⟦<Host<M> as Performer>⟧.view self.old).text ≡ [] }
        ensures { Performed (Asks (Get (name_bytes name.now))) result (⟦<Host<M> as Performer>⟧.view self.old) (⟦<Host<M> as Performer>⟧.view self.new) }
    {
        self.volume.begin();
        if let Err(trouble) = self.prepare() {
            return self.faulted(trouble);
        }
        self.file.fill();
        match self.volume.fetch(name, &mut self.file.bytes) {
            Ok(fetched) => {
                let count = fetched.length.min(self.file.bytes.len());
                let reply = put_text(&mut self.page, fetched.kind, &self.file.bytes[..count]);
                self.answered(reply)
            }
            Err(fault) => self.refused(fault),
        }
    }
}
