// The names of the differences between the model and Linux.
use std::{fs, io};

/// The names that a difference may have.
#[derive(Drop)]
pub struct Names {
    names: Vec<String>,
}

impl Names {
    /// Those of the table: each line is a name, a colon, and what differs.
    pub fn read(rt: &HostRuntime) -> io::Result<Names> {
        let text = fs::read_to_string(rt, "linux/differences.txt")?;
        let mut names = Vec::new(rt.alloc());
        for line in text.lines() {
            if let Some((name, _)) = line.split_once(':') {
                names.push(String::from_str(rt.alloc(), name)?)?;
            }
        }
        Ok(Names { names })
    }

    pub fn has(&self, name: &str) -> bool {
        self.names.iter().any(|other| other.as_str() == name)
    }
}
