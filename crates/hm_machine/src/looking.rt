// Looking at the memory of a machine's processes.
ghost use Rattle.std.specs.Prelude.{◌≡◌, length, true};
ghost use Rattle.hm_history.specs.Memory.Words.{bytes_from};
ghost use Rattle.hm_machine.specs.Showing.{shown_at};
ghost use Rattle.hm_turns.specs.Looking.{IsLook, all_have_areas};
ghost use Rattle.hm_world.specs.WorldValue.{now};

use crate::Machine;
use hm_base::Proc;
use hm_reads::Reads;
use hm_turns::{Looked, Looks};
use skip_rules::SkipRule;

impl<R: SkipRule> Machine<R> {
    // Copies what the process's pages show from an address on, until one has no area. Answers whether all have one.
    fn copy_shown(&self, proc: Proc, addr: u64, into: &mut [u8]) -> bool
        requires { IsLook addr (length into.old) }
        ensures length { length into.new ≡ length into.old }
        ensures areas { result ≡ all_have_areas (now self.now).after.plain proc addr (length into.old) }
        ensures bytes { result ≡ true
            → into.new ≡ bytes_from (shown_at (now self.now).after proc) addr (length into.old) }
    {
        for at in 0..into.len() {
            match self.world.byte(proc, addr + at as u64) {
                Some(byte) => into[at] = byte,
                None => return false,
            }
        }
        true
    }
}

impl<R: SkipRule> Looks for Machine<R> {
    fn look(&self, proc: Proc, addr: u64, into: &mut [u8]) -> Looked {
        hm_laws::frames_read();
        hm_laws::history_stands();
        self.world.facts();
        if let Some(by) = self.world.writer(proc) {
            return Looked::Locked(by);
        }
        if self.copy_shown(proc, addr, into) {
            Looked::Filled
        } else {
            Looked::Unmapped
        }
    }
}
