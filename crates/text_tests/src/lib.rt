// Streams, the text of scripts and reports: what the stored runs do not show.
#![tactic(auto)]

#[cfg(test)]
mod lines_read;
#[cfg(test)]
mod reports;
#[cfg(test)]
mod reports_read;
#[cfg(test)]
mod scripts;
#[cfg(test)]
mod streams;
#[cfg(test)]
mod traces_read;
