//! Devices that give and take in pieces, are interrupted or fail, and whole runs over them.

mod advises;
mod checks;
mod commands;
mod compact_pieces;
mod compares;
mod devices;
mod encodes;
mod fakes;
mod figures;
mod migrates;
mod runs;
