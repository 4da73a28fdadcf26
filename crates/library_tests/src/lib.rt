//! Tests of bencoding, of devices, of hash trees and what they stand on, and of frames and records.
#![tactic(auto)]

#[cfg(test)]
mod any_lengths;
#[cfg(test)]
mod bencoding;
#[cfg(test)]
mod cuts;
#[cfg(test)]
mod devices;
#[cfg(test)]
mod ended_messages;
#[cfg(test)]
mod equal_lengths;
#[cfg(test)]
mod filled_messages;
#[cfg(test)]
mod frames;
#[cfg(test)]
mod layers;
#[cfg(test)]
mod places;
#[cfg(test)]
mod random;
#[cfg(test)]
mod records;
#[cfg(test)]
mod relayed_messages;
#[cfg(test)]
mod trees;
