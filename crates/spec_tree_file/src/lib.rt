//! Definitions: what the bytes of a tree file read as, or their first fault; and what mock rules make of a tree.
#![tactic(auto)]

mod build_fault;
mod content;
mod element;
mod head;
mod manifest_fault;
mod mock_fault;
mod mock_rules;
mod models;
mod numbers;
mod version;

pub use build_fault::BuildFault;
pub use content::Content;
pub use element::{Element, ElementFault, Elements};
pub use head::Head;
pub use manifest_fault::ManifestFault;
pub use mock_fault::MockFault;
pub use mock_rules::{Configuration, ReturnStatus, Rule, Rules};
pub use models::{ModelPort, NodeModel};
pub use numbers::Numbers;
pub use version::{Form, Version};
