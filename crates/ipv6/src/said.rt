use address::prefix::Prefix;
use kind::rule::Action;

// What a rule line says: what to do with the frames of these addresses and this port; without a port, of any.
#[derive(Clone, Copy, Debug, PartialEq, Eq)]
pub struct Said {
    pub action: Action,
    pub prefix: Prefix,
    pub port: Option<u16>,
}
