// SPDX-License-Identifier: MIT OR Apache-2.0
//! Descriptor tags, their CRC, and the small fields that descriptors share.
//!
//! Each descriptor of a volume begins with a tag of 16 bytes (ECMA-167 3/7.2), whose sums distinguish it
//! from noise: [`Tag::check`] says whether they hold. [`ExtentAd`], [`ShortAd`], [`LongAd`] and
//! [`RegId`] are read from slices; an [`LbAddr`] is where a [`LongAd`] begins. No call of this crate takes memory, so none runs out of it.
#![tactic(auto)]

mod checksum;
pub mod extent_types;
pub mod identifiers;
mod layouts;
mod tables;
mod tags;

pub use checksum::crc;
pub use layouts::{ExtentAd, LbAddr, LongAd, RegId, ShortAd};
pub use tags::{Tag, TagFault};
