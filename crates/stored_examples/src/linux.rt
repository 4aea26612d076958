// Compares what Linux answered, as it is kept in the folders of `linux`, with what hmmrun and hmmraces say now. If they
// differ, the difference must have a name of the table `differences.txt`.
mod drawn;
mod lines;
mod model;
mod names;
mod races;
mod selftests;

use names::Names;
use std::io;

/// Says of each kind how many agree.
pub fn compare_all(rt: &HostRuntime) -> io::Result<()> {
    let names = Names::read(rt)?;
    selftests::compare_all(rt, &names, "linux/selftests")?;
    selftests::compare_all(rt, &names, "linux/differences")?;
    drawn::compare_all(rt, &names)?;
    races::compare_all(rt, &names)
}
