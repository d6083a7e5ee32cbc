//! A cluster that threads share: what their calls are answered, and what its journal and its receipts say.
mod audit;
mod lagging;
mod steps;
mod tests;
