//! The examples, and what they share.

mod callers;
mod fixture;
mod histories;
mod order;
mod parts;
mod reasons;
mod refusals;
mod rounds;
mod sizes;
mod stories;
mod texts;
