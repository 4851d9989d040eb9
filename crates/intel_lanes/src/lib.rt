//! What Intel rows do to lanes and to blocks of 16 bytes, by the Intel Intrinsics Guide.
#![tactic(auto)]

pub mod blocks;
pub mod lanes;
