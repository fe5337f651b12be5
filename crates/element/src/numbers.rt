// Elements that take every number of their width.
// An impl for each kind: one for all would make an identity an element too, which has over 32 bits.
ghost use Rattle.element.specs.Numbers.{identifier, call_identifier, ssi, extension, priority, service, area_selection, clir_colr};

use crate::coding::Element;
use crate::kinds;
use fields::{
    AreaSelection, CallIdentifier, Extension, Field, Identifier, Kind, Priority, Service, Ssi,
};

pub type ClirColr = Field<kinds::ClirColr>;

impl Element for Identifier {
    ghost coding = { identifier };

    fn width() -> usize {
        fields::kinds::Identifier::WIDTH as usize
    }

    fn from_code(code: u64) -> Option<Identifier> {
        Identifier::try_from(code).ok()
    }

    fn code(&self) -> u64 {
        self.bits
    }
}

impl Element for CallIdentifier {
    ghost coding = { call_identifier };

    fn width() -> usize {
        fields::kinds::CallIdentifier::WIDTH as usize
    }

    fn from_code(code: u64) -> Option<CallIdentifier> {
        CallIdentifier::try_from(code).ok()
    }

    fn code(&self) -> u64 {
        self.bits
    }
}

impl Element for Ssi {
    ghost coding = { ssi };

    fn width() -> usize {
        fields::kinds::Ssi::WIDTH as usize
    }

    fn from_code(code: u64) -> Option<Ssi> {
        Ssi::try_from(code).ok()
    }

    fn code(&self) -> u64 {
        self.bits
    }
}

impl Element for Extension {
    ghost coding = { extension };

    fn width() -> usize {
        fields::kinds::Extension::WIDTH as usize
    }

    fn from_code(code: u64) -> Option<Extension> {
        Extension::try_from(code).ok()
    }

    fn code(&self) -> u64 {
        self.bits
    }
}

impl Element for Priority {
    ghost coding = { priority };

    fn width() -> usize {
        fields::kinds::Priority::WIDTH as usize
    }

    fn from_code(code: u64) -> Option<Priority> {
        Priority::try_from(code).ok()
    }

    fn code(&self) -> u64 {
        self.bits
    }
}

impl Element for Service {
    ghost coding = { service };

    fn width() -> usize {
        fields::kinds::Service::WIDTH as usize
    }

    fn from_code(code: u64) -> Option<Service> {
        Service::try_from(code).ok()
    }

    fn code(&self) -> u64 {
        self.bits
    }
}

impl Element for AreaSelection {
    ghost coding = { area_selection };

    fn width() -> usize {
        fields::kinds::AreaSelection::WIDTH as usize
    }

    fn from_code(code: u64) -> Option<AreaSelection> {
        AreaSelection::try_from(code).ok()
    }

    fn code(&self) -> u64 {
        self.bits
    }
}

impl Element for ClirColr {
    ghost coding = { clir_colr };

    fn width() -> usize {
        kinds::ClirColr::WIDTH as usize
    }

    fn from_code(code: u64) -> Option<ClirColr> {
        ClirColr::try_from(code).ok()
    }

    fn code(&self) -> u64 {
        self.bits
    }
}
