//! Tests of what no command of the program reaches: devices that fail at one call, impls of the traits at other types, and calls whose
//! contracts leave out of memory open, each answered once with ample memory. It has nothing else.
#![tactic(auto)]

#[cfg(test)]
mod arithmetic;
#[cfg(test)]
mod circuits;
#[cfg(test)]
mod commands;
#[cfg(test)]
mod devices;
#[cfg(test)]
mod error_texts;
#[cfg(test)]
mod gates;
#[cfg(test)]
mod layouts;
#[cfg(test)]
mod prices;
#[cfg(test)]
mod programs;
#[cfg(test)]
mod states;
#[cfg(test)]
mod tokens;
#[cfg(test)]
mod values;
