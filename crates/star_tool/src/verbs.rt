// What each verb does, in a file of its own.

pub(crate) mod audit;
pub(crate) mod book;
pub(crate) mod certify;
pub(crate) mod check;
pub(crate) mod epochs;
pub(crate) mod expect;
pub(crate) mod generate;
pub(crate) mod make;
pub(crate) mod merge;
pub(crate) mod open_book;
pub(crate) mod reveal;
pub(crate) mod self_test;
