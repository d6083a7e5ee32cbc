//! How a property is spelled (`spelling`), whether two are the same (`same_setting`), and which `root` has.
ghost use Rattle.std.specs.Prelude.{◌≡◌};
ghost use Rattle.cap_base.specs.properties.Keys.{spelling, is_of_root};
ghost use Rattle.cap_base.specs.properties.Queues.{same_setting, setting_number};

use cap_base::properties::Setting;

/// The whole key of a property of the cluster, or the end of the key of one of a queue.
#[tactic(auto, unfolding(cap_base::specs::properties::Keys::spelling))]
pub fn spelling(setting: Setting) -> &'static [u8]
    ensures { result.now ≡ spelling setting }
{
    match setting {
        Setting::Queues => b"queues",
        Setting::Capacity => b"capacity",
        Setting::MaximumCapacity => b"maximum-capacity",
        Setting::UserLimitFactor => b"user-limit-factor",
        Setting::State => b"state",
        Setting::MaximumApplications => b"yarn.scheduler.capacity.maximum-applications",
        Setting::MinimumMemory => b"yarn.scheduler.minimum-allocation-mb",
        Setting::MinimumVcores => b"yarn.scheduler.minimum-allocation-vcores",
        Setting::MinimumGpu => b"yarn.resource-types.yarn.io/gpu.minimum-allocation",
        Setting::MaximumMemory => b"yarn.scheduler.maximum-allocation-mb",
        Setting::MaximumVcores => b"yarn.scheduler.maximum-allocation-vcores",
        Setting::MaximumGpu => b"yarn.resource-types.yarn.io/gpu.maximum-allocation",
    }
}

/// Whether the two are the same.
pub fn same_setting(a: Setting, b: Setting) -> bool
    ensures { result ≡ same_setting a b }
{
    setting_number(a) == setting_number(b)
}

fn setting_number(setting: Setting) -> u8
    ensures { result ≡ setting_number setting }
{
    match setting {
        Setting::Queues => 0,
        Setting::Capacity => 1,
        Setting::MaximumCapacity => 2,
        Setting::UserLimitFactor => 3,
        Setting::State => 4,
        Setting::MaximumApplications => 5,
        Setting::MinimumMemory => 6,
        Setting::MinimumVcores => 7,
        Setting::MinimumGpu => 8,
        Setting::MaximumMemory => 9,
        Setting::MaximumVcores => 10,
        Setting::MaximumGpu => 11,
    }
}

/// Whether `root` has this property.
pub fn is_of_root(setting: Setting) -> bool
    ensures { result ≡ is_of_root setting }
{
    matches!(setting, Setting::Queues | Setting::State)
}
