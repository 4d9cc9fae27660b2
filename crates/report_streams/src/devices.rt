//! Where bytes come from and where they go to: readers and writers that may fail, with what a contract must know of them.
//!
//! A [`Source`] gives bytes and a [`Sink`] takes them. Contracts see the bytes that a source has left and those that a sink holds,
//! where they are known, how many reads there were, whether a sink was flushed, and whether the device has failed. [`FromRead`] makes a
//! source of any reader of std, and [`ToWrite`] a sink of any writer. Over memory both tell their bytes; over a file or a pipe nothing is
//! known of them. [`FromKnown`] and [`ToKnown`] fail only if their reader or writer may: so a [`FromKnown`] over a slice never fails.
//! [`FromRead`] and [`ToWrite`] are these two at a reader and a writer of std, which may fail at any time.
//! [`limited`] has readers and writers for tests, which give or take a few bytes a call and fail where they are told to.
//! This module stands on no other of this repository.

mod failed;
pub mod limited;
mod sink;
mod source;

pub use failed::DeviceFailed;
pub use sink::{AnyWriter, KnownWriter, Sink, ToKnown, ToWrite};
pub use source::{AnyReader, FromKnown, FromRead, KnownReader, Source};
