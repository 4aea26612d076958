// The first words of lines.

ghost use Rattle.std.specs.Prelude.{◌≡◌};
ghost use Rattle.hm_script.specs.Keywords.{op_text, op_named, keyword_named};
ghost use Rattle.hm_script.specs.Built.{is_new_word};

/// The word of an operation.
#[derive(Clone, Copy)]
pub enum OpWord {
    Map,
    Unmap,
    Protect,
    Load,
    Store,
    Fork,
    Exit,
    Attach,
    Detach,
    DeviceLoad,
    DeviceStore,
    ToDevice,
    ToSystem,
    Snap,
    Evict,
    Remove,
    Exclusive,
    Add,
}

/// A first word that a line after the first may have.
#[derive(Clone, Copy)]
pub enum Keyword {
    Frames,
    Device,
    Skip,
    Actor,
    Turns,
    Drain,
    Op(OpWord),
}

impl OpWord {
    const ALL: [OpWord; 18] = [
        OpWord::Map,
        OpWord::Unmap,
        OpWord::Protect,
        OpWord::Load,
        OpWord::Store,
        OpWord::Fork,
        OpWord::Exit,
        OpWord::Attach,
        OpWord::Detach,
        OpWord::DeviceLoad,
        OpWord::DeviceStore,
        OpWord::ToDevice,
        OpWord::ToSystem,
        OpWord::Snap,
        OpWord::Evict,
        OpWord::Remove,
        OpWord::Exclusive,
        OpWord::Add,
    ];

    pub fn text(self) -> &'static [u8]
        ensures { result.now ≡ op_text self }
    {
        match self {
            OpWord::Map => b"map",
            OpWord::Unmap => b"unmap",
            OpWord::Protect => b"protect",
            OpWord::Load => b"load",
            OpWord::Store => b"store",
            OpWord::Fork => b"fork",
            OpWord::Exit => b"exit",
            OpWord::Attach => b"attach",
            OpWord::Detach => b"detach",
            OpWord::DeviceLoad => b"dload",
            OpWord::DeviceStore => b"dstore",
            OpWord::ToDevice => b"todev",
            OpWord::ToSystem => b"tosys",
            OpWord::Snap => b"snap",
            OpWord::Evict => b"evict",
            OpWord::Remove => b"remove",
            OpWord::Exclusive => b"exclusive",
            OpWord::Add => b"dadd",
        }
    }

    /// Whether only version 2 has the operation.
    pub(crate) fn is_new(self) -> bool
        ensures { result ≡ is_new_word self }
    {
        matches!(self, OpWord::Exclusive | OpWord::Add)
    }

    #[tactic(auto, unfolding(crate::specs::Keywords::op_named))]
    pub fn named(word: &[u8]) -> Option<OpWord>
        ensures { result ≡ op_named word.now }
    {
        OpWord::ALL.iter().copied().find(|op| op.text() == word)
    }
}

impl Keyword {
    #[tactic(auto, unfolding(crate::specs::Keywords::keyword_named))]
    pub fn named(word: &[u8]) -> Option<Keyword>
        ensures { result ≡ keyword_named word.now }
    {
        if word == b"frames".as_slice() {
            return Some(Keyword::Frames);
        }
        if word == b"device".as_slice() {
            return Some(Keyword::Device);
        }
        if word == b"skip".as_slice() {
            return Some(Keyword::Skip);
        }
        if word == b"actor".as_slice() {
            return Some(Keyword::Actor);
        }
        if word == b"turns".as_slice() {
            return Some(Keyword::Turns);
        }
        if word == b"drain".as_slice() {
            return Some(Keyword::Drain);
        }
        OpWord::named(word).map(Keyword::Op)
    }
}
