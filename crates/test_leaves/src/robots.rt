//! Tests alone: tables of runs of a host that holds its own drivers.

mod hosts;
