//! The version that the program tells.

/// The version. No source can name the commit that it is part of. So `./run407` proves or compiles a copy, in which this line also has the commit
/// and the toolchain behind the version.
pub const VERSION: &str = "0.3";
