// The machine, its workers and the programs: what no stored run shows. One crate has all these tests, since the gate
// reads the libraries below for each crate of tests once more.
#![tactic(auto)]

#[cfg(test)]
mod advice;
#[cfg(test)]
mod calls;
#[cfg(test)]
mod cases;
#[cfg(test)]
mod copies;
#[cfg(test)]
mod ends;
#[cfg(test)]
mod full;
#[cfg(test)]
mod gates;
#[cfg(test)]
mod loads;
#[cfg(test)]
mod masks;
#[cfg(test)]
mod meeting;
#[cfg(test)]
mod orders;
#[cfg(test)]
mod pieces;
#[cfg(test)]
mod races;
#[cfg(test)]
mod rules;
#[cfg(test)]
mod runs;
#[cfg(test)]
mod sources;
#[cfg(test)]
mod turns;
#[cfg(test)]
mod views;
#[cfg(test)]
mod watched;
#[cfg(test)]
mod workers;
