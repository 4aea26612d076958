// The leaves: a few vectors by hand, and drawn calls whose answers are compared with plain lists.
#![tactic(auto)]

#[cfg(test)]
mod areas;
#[cfg(test)]
mod closures;
#[cfg(test)]
mod drawn;
#[cfg(test)]
mod frame_bytes;
#[cfg(test)]
mod frame_locks;
#[cfg(test)]
mod frame_scans;
#[cfg(test)]
mod frames;
#[cfg(test)]
mod intervals;
#[cfg(test)]
mod mirrors;
#[cfg(test)]
mod sequences;
#[cfg(test)]
mod tables;
#[cfg(test)]
mod uses;
#[cfg(test)]
mod words;
