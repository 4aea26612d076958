// The words that a script may use.
ghost use Rattle.std.specs.Prelude.{◌≡◌};
ghost use Rattle.hm_script.specs.Built.{every_word, has_op};

use crate::keyword::OpWord;

/// Which words of the grammar there are: a field for each operation and for each further word. A
/// word that is not there is a bad word, as is a second line if only one is allowed.
#[derive(Clone, Copy)]
pub struct Words {
    pub map: bool,
    pub unmap: bool,
    pub protect: bool,
    pub load: bool,
    pub store: bool,
    pub fork: bool,
    pub exit: bool,
    pub attach: bool,
    pub detach: bool,
    pub device_load: bool,
    pub device_store: bool,
    pub to_device: bool,
    pub to_system: bool,
    pub snap: bool,
    pub evict: bool,
    pub remove: bool,
    pub exclusive: bool,
    pub add: bool,
    pub skip: bool,
    pub drain: bool,
    /// Whether the first line may be `hmm 2`.
    pub version_two: bool,
    /// Whether a second line `actor` may come.
    pub several_actors: bool,
    /// Whether a second line `turns` may come.
    pub several_turns: bool,
}

/// The whole grammar, of both versions.
pub const ALL_WORDS: Words = Words {
    map: true,
    unmap: true,
    protect: true,
    load: true,
    store: true,
    fork: true,
    exit: true,
    attach: true,
    detach: true,
    device_load: true,
    device_store: true,
    to_device: true,
    to_system: true,
    snap: true,
    evict: true,
    remove: true,
    exclusive: true,
    add: true,
    skip: true,
    drain: true,
    version_two: true,
    several_actors: true,
    several_turns: true,
};

impl Words {
    /// The whole grammar, of both versions.
    pub fn all() -> Words
        ensures { result ≡ every_word }
    {
        ALL_WORDS
    }

    /// Whether the operation is there.
    pub(crate) fn has(&self, op: OpWord) -> bool
        ensures { result ≡ has_op self.now op }
    {
        match op {
            OpWord::Map => self.map,
            OpWord::Unmap => self.unmap,
            OpWord::Protect => self.protect,
            OpWord::Load => self.load,
            OpWord::Store => self.store,
            OpWord::Fork => self.fork,
            OpWord::Exit => self.exit,
            OpWord::Attach => self.attach,
            OpWord::Detach => self.detach,
            OpWord::DeviceLoad => self.device_load,
            OpWord::DeviceStore => self.device_store,
            OpWord::ToDevice => self.to_device,
            OpWord::ToSystem => self.to_system,
            OpWord::Snap => self.snap,
            OpWord::Evict => self.evict,
            OpWord::Remove => self.remove,
            OpWord::Exclusive => self.exclusive,
            OpWord::Add => self.add,
        }
    }
}
