//! Tests of single calls of the libraries that need devices or values: failing readers and writers, names of keysyms, files that
//! keep their outlines, tables, images, keyboards and followers, and sessions. What a source gives stands in the files of cases.
#![tactic(auto)]

#[cfg(test)]
mod building;
#[cfg(test)]
mod calls;
#[cfg(test)]
mod checking;
#[cfg(test)]
mod devices;
#[cfg(test)]
mod headline;
#[cfg(test)]
mod images;
#[cfg(test)]
mod including;
#[cfg(test)]
mod keyboards;
#[cfg(test)]
mod keysyms;
#[cfg(test)]
mod places;
#[cfg(test)]
mod printed_images;
#[cfg(test)]
mod printing;
#[cfg(test)]
mod sessions;
#[cfg(test)]
mod sources;
#[cfg(test)]
mod typing;
