// Scripts of version 2.

ghost use Rattle.std.specs.Prelude.{◌≡◌};
ghost use Rattle.hm_base.specs.declared.ops.Version.TheVariants.{Two};

use hm_base::{Script, Version};

/// Sets the version to 2, and leaves the rest: the script has the same operations, and may get those
/// that version 1 has not.
pub fn upgrade(script: &mut Script)
    ensures { script.new ≡ record script.old { version = Two } }
{
    script.version = Version::Two;
}
