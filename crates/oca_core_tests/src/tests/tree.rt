//! Answers from outside: answers of the profile byte by byte, and the table of methods once over the bench
//! device.
mod blocks;
mod building;
mod commands;
mod front;
mod integers;
mod lists;
mod locks;
mod methods;
mod script;
mod starts;
mod switches;
mod words;
