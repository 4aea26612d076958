// The words of an entry's line, read by the kind that they name.
ghost use Rattle.std.specs.Prelude.{◌≡◌, false, IfOk};
ghost use Rattle.hm_script.specs.Splitting.{word};
ghost use Rattle.hm_report_reading.specs.Kinds.{has_bytes, kind_at};
ghost use Rattle.hm_report_reading.specs.Words.{bytes_at, framed_place, place_at, why_at};

use crate::kind_word::KindWord;
use crate::words::{
    actor, byte, bytes, cause, device, frame, kept, mirror, own_place, page, part, proc, right,
    span, system_number, table_right, target, who, writes,
};
use hm_base::{Bytes, Frame, NoMemory, Place};
use hm_history::{KeptWhy, Kind};
use hm_script::{LineWords, Reason, address, number};
use std::alloc::Global;

/// A place with a frame, of this name.
fn framed_place(name: &[u8], frame: Frame, last: &[u8]) -> Result<Place, Reason>
    ensures { result ≡ framed_place name.now frame last.now }
{
    let writable = writes(last);
    if name == b"sys".as_slice() {
        let number = system_number(&frame)?;
        return Ok(Place::Sys { number, writable });
    }
    if name == b"own".as_slice() {
        return own_place(&frame, writable);
    }
    if name == b"moving".as_slice() {
        return Ok(Place::Moving { frame, writable });
    }
    let number = system_number(&frame)?;
    let actor = actor(last)?;
    Ok(Place::Exclusive { number, actor })
}

/// The words of an entry's line: its position, its actor, the kind's word, and what that kind tells.
#[derive(Drop)]
pub struct EntryWords<'a> {
    pub words: LineWords<'a>,
}

impl EntryWords<'_> {
    /// The place that the words from the sixth on tell.
    #[tactic(auto, unfolding(crate::specs::Words::place_at))]
    fn place(&self) -> Result<Place, Reason>
        ensures { result ≡ place_at self.now.words }
    {
        let name = self.words.get(5);
        if name == b"none".as_slice() {
            return Ok(Place::Empty);
        }
        if name == b"zero".as_slice() {
            return Ok(Place::Zero);
        }
        let frame = frame(self.words.get(6))?;
        framed_place(name, frame, self.words.get(7))
    }

    /// The reason that the words from the fifth on tell.
    #[tactic(auto, unfolding(crate::specs::Words::why_at))]
    fn why(&self) -> Result<KeptWhy, Reason>
        ensures { result ≡ why_at self.now.words }
    {
        let name = self.words.get(4);
        if name == b"nothere".as_slice() {
            return Ok(KeptWhy::NotHere);
        }
        if name == b"locked".as_slice() {
            let actor = actor(self.words.get(5))?;
            return Ok(KeptWhy::LockedBy(actor));
        }
        if name == b"noframe".as_slice() {
            return Ok(KeptWhy::NoFrame);
        }
        if name == b"skipped".as_slice() {
            return Ok(KeptWhy::Skipped);
        }
        if name == b"lost".as_slice() {
            return Ok(KeptWhy::Lost);
        }
        Err(Reason::Word)
    }

    #[tactic(auto, unfolding(crate::specs::Kinds::kind_at))]
    fn loaded(&self, bytes: Bytes) -> Result<Kind, Reason>
        requires { bytes ≡ bytes_at (word 5 self.now.words) }
        ensures { result ≡ kind_at KindWord.Loaded self.now.words }
    {
        let who = who(self.words.get(3))?;
        let addr = address(self.words.get(4))?;
        Ok(Kind::Loaded { who, addr, bytes })
    }

    #[tactic(auto, unfolding(crate::specs::Kinds::kind_at))]
    fn stored(&self, bytes: Bytes) -> Result<Kind, Reason>
        requires { bytes ≡ bytes_at (word 5 self.now.words) }
        ensures { result ≡ kind_at KindWord.Stored self.now.words }
    {
        let who = who(self.words.get(3))?;
        let addr = address(self.words.get(4))?;
        Ok(Kind::Stored { who, addr, bytes })
    }

    #[tactic(auto, unfolding(crate::specs::Kinds::kind_at))]
    fn failed(&self) -> Result<Kind, Reason>
        ensures { result ≡ kind_at KindWord.Failed self.now.words }
    {
        let who = who(self.words.get(3))?;
        let addr = address(self.words.get(4))?;
        let len = number(self.words.get(5))?;
        let cause = cause(self.words.get(6))?;
        Ok(Kind::Failed {
            who,
            addr,
            len,
            cause,
        })
    }

    #[tactic(auto, unfolding(crate::specs::Kinds::kind_at))]
    fn mapped(&self) -> Result<Kind, Reason>
        ensures { result ≡ kind_at KindWord.Mapped self.now.words }
    {
        let proc = proc(self.words.get(3))?;
        let span = span(self.words.get(4), self.words.get(5))?;
        let rights = right(self.words.get(6));
        Ok(Kind::Mapped { proc, span, rights })
    }

    #[tactic(auto, unfolding(crate::specs::Kinds::kind_at))]
    fn unmapped(&self) -> Result<Kind, Reason>
        ensures { result ≡ kind_at KindWord.Unmapped self.now.words }
    {
        let proc = proc(self.words.get(3))?;
        let span = span(self.words.get(4), self.words.get(5))?;
        Ok(Kind::Unmapped { proc, span })
    }

    #[tactic(auto, unfolding(crate::specs::Kinds::kind_at))]
    fn protected(&self) -> Result<Kind, Reason>
        ensures { result ≡ kind_at KindWord.Protected self.now.words }
    {
        let proc = proc(self.words.get(3))?;
        let span = span(self.words.get(4), self.words.get(5))?;
        let rights = right(self.words.get(6));
        Ok(Kind::Protected { proc, span, rights })
    }

    #[tactic(auto, unfolding(crate::specs::Kinds::kind_at))]
    fn forked(&self) -> Result<Kind, Reason>
        ensures { result ≡ kind_at KindWord.Forked self.now.words }
    {
        let parent = proc(self.words.get(3))?;
        let child = proc(self.words.get(4))?;
        Ok(Kind::Forked { parent, child })
    }

    #[tactic(auto, unfolding(crate::specs::Kinds::kind_at))]
    fn exited(&self) -> Result<Kind, Reason>
        ensures { result ≡ kind_at KindWord.Exited self.now.words }
    {
        let proc = proc(self.words.get(3))?;
        Ok(Kind::Exited(proc))
    }

    #[tactic(auto, unfolding(crate::specs::Kinds::kind_at))]
    fn attached(&self) -> Result<Kind, Reason>
        ensures { result ≡ kind_at KindWord.Attached self.now.words }
    {
        let mirror = mirror(self.words.get(3))?;
        let dev = device(self.words.get(4))?;
        let proc = proc(self.words.get(5))?;
        let span = span(self.words.get(6), self.words.get(7))?;
        let seq = number(self.words.get(8))?;
        Ok(Kind::Attached {
            mirror,
            dev,
            proc,
            span,
            seq,
        })
    }

    #[tactic(auto, unfolding(crate::specs::Kinds::kind_at))]
    fn detaching(&self) -> Result<Kind, Reason>
        ensures { result ≡ kind_at KindWord.Detaching self.now.words }
    {
        let mirror = mirror(self.words.get(3))?;
        let seq = number(self.words.get(4))?;
        Ok(Kind::Detaching { mirror, seq })
    }

    #[tactic(auto, unfolding(crate::specs::Kinds::kind_at))]
    fn detached(&self) -> Result<Kind, Reason>
        ensures { result ≡ kind_at KindWord.Detached self.now.words }
    {
        let mirror = mirror(self.words.get(3))?;
        Ok(Kind::Detached(mirror))
    }

    #[tactic(auto, unfolding(crate::specs::Kinds::kind_at))]
    fn refused(&self) -> Result<Kind, Reason>
        ensures { result ≡ kind_at KindWord.Refused self.now.words }
    {
        let cause = cause(self.words.get(3))?;
        Ok(Kind::Refused(cause))
    }

    #[tactic(auto, unfolding(crate::specs::Kinds::kind_at))]
    fn migrated(&self) -> Result<Kind, Reason>
        ensures { result ≡ kind_at KindWord.Migrated self.now.words }
    {
        let count = number(self.words.get(3))?;
        Ok(Kind::Migrated(count))
    }

    #[tactic(auto, unfolding(crate::specs::Kinds::kind_at))]
    fn seen(&self) -> Result<Kind, Reason>
        ensures { result ≡ kind_at KindWord.Seen self.now.words }
    {
        let mirror = mirror(self.words.get(3))?;
        let page = page(self.words.get(4))?;
        let code = byte(self.words.get(5));
        Ok(Kind::Seen { mirror, page, code })
    }

    #[tactic(auto, unfolding(crate::specs::Kinds::kind_at))]
    fn evicted(&self) -> Result<Kind, Reason>
        ensures { result ≡ kind_at KindWord.Evicted self.now.words }
    {
        let count = number(self.words.get(3))?;
        Ok(Kind::Evicted(count))
    }

    #[tactic(auto, unfolding(crate::specs::Kinds::kind_at))]
    fn removed(&self) -> Result<Kind, Reason>
        ensures { result ≡ kind_at KindWord.Removed self.now.words }
    {
        let dev = device(self.words.get(3))?;
        Ok(Kind::Removed(dev))
    }

    #[tactic(auto, unfolding(crate::specs::Kinds::kind_at))]
    fn rlock(&self) -> Result<Kind, Reason>
        ensures { result ≡ kind_at KindWord.Rlock self.now.words }
    {
        let proc = proc(self.words.get(3))?;
        Ok(Kind::Rlock(proc))
    }

    #[tactic(auto, unfolding(crate::specs::Kinds::kind_at))]
    fn runlock(&self) -> Result<Kind, Reason>
        ensures { result ≡ kind_at KindWord.Runlock self.now.words }
    {
        let proc = proc(self.words.get(3))?;
        Ok(Kind::Runlock(proc))
    }

    #[tactic(auto, unfolding(crate::specs::Kinds::kind_at))]
    fn wlock(&self) -> Result<Kind, Reason>
        ensures { result ≡ kind_at KindWord.Wlock self.now.words }
    {
        let proc = proc(self.words.get(3))?;
        Ok(Kind::Wlock(proc))
    }

    #[tactic(auto, unfolding(crate::specs::Kinds::kind_at))]
    fn named(&self) -> Result<Kind, Reason>
        ensures { result ≡ kind_at KindWord.Named self.now.words }
    {
        let parent = proc(self.words.get(3))?;
        let child = proc(self.words.get(4))?;
        Ok(Kind::Named { parent, child })
    }

    #[tactic(auto, unfolding(crate::specs::Kinds::kind_at))]
    fn taken(&self) -> Result<Kind, Reason>
        ensures { result ≡ kind_at KindWord.Take self.now.words }
    {
        let frame = frame(self.words.get(3))?;
        Ok(Kind::Take(frame))
    }

    #[tactic(auto, unfolding(crate::specs::Kinds::kind_at))]
    fn dropped(&self) -> Result<Kind, Reason>
        ensures { result ≡ kind_at KindWord.Drop self.now.words }
    {
        let frame = frame(self.words.get(3))?;
        Ok(Kind::Drop(frame))
    }

    #[tactic(auto, unfolding(crate::specs::Kinds::kind_at))]
    fn placed(&self) -> Result<Kind, Reason>
        ensures { result ≡ kind_at KindWord.Place self.now.words }
    {
        let proc = proc(self.words.get(3))?;
        let page = page(self.words.get(4))?;
        let place = self.place()?;
        Ok(Kind::Place { proc, page, place })
    }

    #[tactic(auto, unfolding(crate::specs::Kinds::kind_at))]
    fn started(&self) -> Result<Kind, Reason>
        ensures { result ≡ kind_at KindWord.Start self.now.words }
    {
        let proc = proc(self.words.get(3))?;
        let span = span(self.words.get(4), self.words.get(5))?;
        let seq = number(self.words.get(6))?;
        Ok(Kind::Start { proc, span, seq })
    }

    #[tactic(auto, unfolding(crate::specs::Kinds::kind_at))]
    fn told(&self) -> Result<Kind, Reason>
        ensures { result ≡ kind_at KindWord.Told self.now.words }
    {
        let mirror = mirror(self.words.get(3))?;
        let span = span(self.words.get(4), self.words.get(5))?;
        let seq = number(self.words.get(6))?;
        Ok(Kind::Told { mirror, span, seq })
    }

    #[tactic(auto, unfolding(crate::specs::Kinds::kind_at))]
    fn ended(&self) -> Result<Kind, Reason>
        ensures { result ≡ kind_at KindWord.End self.now.words }
    {
        let proc = proc(self.words.get(3))?;
        let span = span(self.words.get(4), self.words.get(5))?;
        let seq = number(self.words.get(6))?;
        Ok(Kind::End { proc, span, seq })
    }

    #[tactic(auto, unfolding(crate::specs::Kinds::kind_at))]
    fn begun(&self) -> Result<Kind, Reason>
        ensures { result ≡ kind_at KindWord.Begin self.now.words }
    {
        let mirror = mirror(self.words.get(3))?;
        let seq = number(self.words.get(4))?;
        Ok(Kind::Begin { mirror, seq })
    }

    #[tactic(auto, unfolding(crate::specs::Kinds::kind_at))]
    fn retry(&self) -> Result<Kind, Reason>
        ensures { result ≡ kind_at KindWord.Retry self.now.words }
    {
        let mirror = mirror(self.words.get(3))?;
        Ok(Kind::Retry(mirror))
    }

    #[tactic(auto, unfolding(crate::specs::Kinds::kind_at))]
    fn set(&self) -> Result<Kind, Reason>
        ensures { result ≡ kind_at KindWord.Set self.now.words }
    {
        let mirror = mirror(self.words.get(3))?;
        let page = page(self.words.get(4))?;
        let target = target(self.words.get(5))?;
        let right = table_right(self.words.get(6));
        let since = number(self.words.get(7))?;
        Ok(Kind::Set {
            mirror,
            page,
            target,
            right,
            since,
        })
    }

    #[tactic(auto, unfolding(crate::specs::Kinds::kind_at))]
    fn fresh(&self) -> Result<Kind, Reason>
        ensures { result ≡ kind_at KindWord.Fresh self.now.words }
    {
        let proc = proc(self.words.get(3))?;
        let page = page(self.words.get(4))?;
        Ok(Kind::Fresh { proc, page })
    }

    #[tactic(auto, unfolding(crate::specs::Kinds::kind_at))]
    fn copied(&self) -> Result<Kind, Reason>
        ensures { result ≡ kind_at KindWord.Copied self.now.words }
    {
        let from = frame(self.words.get(3))?;
        let to = frame(self.words.get(4))?;
        let part = part(self.words.get(5))?;
        Ok(Kind::Copied { from, to, part })
    }

    #[tactic(auto, unfolding(crate::specs::Kinds::kind_at))]
    fn committed(&self) -> Result<Kind, Reason>
        ensures { result ≡ kind_at KindWord.Committed self.now.words }
    {
        let from = frame(self.words.get(3))?;
        let to = frame(self.words.get(4))?;
        Ok(Kind::Committed { from, to })
    }

    #[tactic(auto, unfolding(crate::specs::Kinds::kind_at))]
    fn kept(&self) -> Result<Kind, Reason>
        ensures { result ≡ kind_at KindWord.Kept self.now.words }
    {
        let at = kept(self.words.get(3))?;
        let why = self.why()?;
        Ok(Kind::Kept { at, why })
    }

    #[tactic(auto, unfolding(crate::specs::Kinds::kind_at))]
    fn done(&self) -> Result<Kind, Reason>
        ensures { result ≡ kind_at KindWord.Done self.now.words }
    {
        let frame = frame(self.words.get(3))?;
        Ok(Kind::Done(frame))
    }

    #[tactic(auto, unfolding(crate::specs::Kinds::kind_at))]
    fn withdrawn(&self) -> Result<Kind, Reason>
        ensures { result ≡ kind_at KindWord.Withdrawn self.now.words }
    {
        let dev = device(self.words.get(3))?;
        Ok(Kind::Withdrawn(dev))
    }

    #[tactic(auto, unfolding(crate::specs::Kinds::kind_at))]
    fn excluded(&self) -> Result<Kind, Reason>
        ensures { result ≡ kind_at KindWord.Excluded self.now.words }
    {
        let mirror = mirror(self.words.get(3))?;
        let page = page(self.words.get(4))?;
        Ok(Kind::Excluded { mirror, page })
    }

    #[tactic(auto, unfolding(crate::specs::Kinds::kind_at))]
    fn fetched(&self, bytes: Bytes) -> Result<Kind, Reason>
        requires { bytes ≡ bytes_at (word 5 self.now.words) }
        ensures { result ≡ kind_at KindWord.Fetched self.now.words }
    {
        let mirror = mirror(self.words.get(3))?;
        let addr = address(self.words.get(4))?;
        Ok(Kind::Fetched {
            mirror,
            addr,
            bytes,
        })
    }

    #[tactic(auto, unfolding(crate::specs::Kinds::kind_at))]
    fn added(&self) -> Result<Kind, Reason>
        ensures { result ≡ kind_at KindWord.Added self.now.words }
    {
        let mirror = mirror(self.words.get(3))?;
        let addr = address(self.words.get(4))?;
        let read = byte(self.words.get(5));
        let written = byte(self.words.get(6));
        Ok(Kind::Added {
            mirror,
            addr,
            read,
            written,
        })
    }

    /// Reads the words of a kind that tells no bytes, or one.
    fn read_short(&self, kind: KindWord) -> Result<Kind, Reason>
        requires { has_bytes kind ≡ false }
        ensures { result ≡ kind_at kind self.now.words }
    {
        match kind {
            KindWord::Loaded => unreachable!(),
            KindWord::Stored => unreachable!(),
            KindWord::Failed => self.failed(),
            KindWord::Mapped => self.mapped(),
            KindWord::Unmapped => self.unmapped(),
            KindWord::Protected => self.protected(),
            KindWord::Forked => self.forked(),
            KindWord::Exited => self.exited(),
            KindWord::Attached => self.attached(),
            KindWord::Detaching => self.detaching(),
            KindWord::Detached => self.detached(),
            KindWord::Refused => self.refused(),
            KindWord::Migrated => self.migrated(),
            KindWord::Seen => self.seen(),
            KindWord::Evicted => self.evicted(),
            KindWord::Removed => self.removed(),
            KindWord::Rlock => self.rlock(),
            KindWord::Runlock => self.runlock(),
            KindWord::Wlock => self.wlock(),
            KindWord::Named => self.named(),
            KindWord::Take => self.taken(),
            KindWord::Drop => self.dropped(),
            KindWord::Place => self.placed(),
            KindWord::Start => self.started(),
            KindWord::Told => self.told(),
            KindWord::End => self.ended(),
            KindWord::Begin => self.begun(),
            KindWord::Retry => self.retry(),
            KindWord::Set => self.set(),
            KindWord::Fresh => self.fresh(),
            KindWord::Copied => self.copied(),
            KindWord::Committed => self.committed(),
            KindWord::Kept => self.kept(),
            KindWord::Done => self.done(),
            KindWord::Withdrawn => self.withdrawn(),
            KindWord::Excluded => self.excluded(),
            KindWord::Fetched => unreachable!(),
            KindWord::Added => self.added(),
        }
    }

    /// Reads the words by the kind that they name.
    pub(crate) fn read(
        &self,
        alloc: Global,
        kind: KindWord,
    ) -> Result<Result<Kind, Reason>, NoMemory>
        ensures { IfOk result (λ k. k ≡ kind_at kind self.now.words) }
    {
        Ok(match kind {
            KindWord::Loaded => self.loaded(bytes(alloc, self.words.get(5))?),
            KindWord::Stored => self.stored(bytes(alloc, self.words.get(5))?),
            KindWord::Fetched => self.fetched(bytes(alloc, self.words.get(5))?),
            _ => self.read_short(kind),
        })
    }
}
