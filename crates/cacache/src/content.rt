//! Contents by their address.
pub mod linkto;
pub mod path;
pub mod read;
pub mod rm;
pub mod write;
