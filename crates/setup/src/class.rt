// The classes of cores, and what there is one of for each class.
ghost use Rattle.setup.specs.Classes.{of_class, AreFourNumbers};
ghost use Rattle.std.specs.Prelude.{◌≡◌};

/// Whether a core is critical.
#[derive(Clone, Copy, Debug, PartialEq, Eq, Hash)]
pub enum Class {
    Critical,
    NonCritical,
}

/// Something for each class of cores.
#[derive(Clone, Copy, Debug, Default, PartialEq, Eq, Hash)]
pub struct ByClass<T> {
    pub critical: T,
    pub noncritical: T,
}

impl<T: Copy> ByClass<T> {
    /// That of one class.
    pub fn of(self, class: Class) -> T
        ensures { result ≡ of_class self class }
    {
        match class {
            Class::Critical => self.critical,
            Class::NonCritical => self.noncritical,
        }
    }

    /// What a function makes of each.
    pub fn map<U, F: Fn(T) -> U>(self, f: F) -> ByClass<U>
        requires critical { F.pre f self.critical }
        requires noncritical { F.pre f self.noncritical }
        ensures critical { F.post f self.critical result.critical }
        ensures noncritical { F.post f self.noncritical result.noncritical }
    {
        ByClass {
            critical: f(self.critical),
            noncritical: f(self.noncritical),
        }
    }

    /// What a function makes of two, class by class.
    pub fn zip_with<U: Copy, V, F: Fn(T, U) -> V>(self, other: ByClass<U>, f: F) -> ByClass<V>
        requires critical { F.pre f self.critical other.critical }
        requires noncritical { F.pre f self.noncritical other.noncritical }
        ensures critical { F.post f self.critical other.critical result.critical }
        ensures noncritical { F.post f self.noncritical other.noncritical result.noncritical }
    {
        ByClass {
            critical: f(self.critical, other.critical),
            noncritical: f(self.noncritical, other.noncritical),
        }
    }
}

impl<T> From<ByClass<T>> for (T, T) {
    ghost from_gives = { λ each pair. pair ≡ (each.critical, each.noncritical) };

    fn from(each: ByClass<T>) -> (T, T) {
        (each.critical, each.noncritical)
    }
}

impl From<[u16; 4]> for ByClass<ByClass<u16>> {
    ghost from_gives = { AreFourNumbers };

    /// Four numbers in a row: by the first class and then by the second, critical before non-critical.
    fn from(row: [u16; 4]) -> ByClass<ByClass<u16>> {
        let [cc, cn, nc, nn] = row;
        ByClass {
            critical: ByClass {
                critical: cc,
                noncritical: cn,
            },
            noncritical: ByClass {
                critical: nc,
                noncritical: nn,
            },
        }
    }
}
