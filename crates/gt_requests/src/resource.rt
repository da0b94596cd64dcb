ghost use Rattle.gt_requests.specs.Resources.{route_text};
ghost use Rattle.std.specs.Prelude.{◌≡◌};

/// What a route is about.
#[derive(Clone, Copy, Debug, PartialEq, Eq)]
pub(crate) enum Resource {
    SubmissionId,
    Transfer,
    TaskList,
    Task,
    Successes,
    Skipped,
    Endpoint,
    AccessList,
    AccessRules,
    AccessRule,
}

/// Each resource.
pub(crate) const RESOURCES: [Resource; 10] = [
    Resource::SubmissionId,
    Resource::Transfer,
    Resource::TaskList,
    Resource::Task,
    Resource::Successes,
    Resource::Skipped,
    Resource::Endpoint,
    Resource::AccessList,
    Resource::AccessRules,
    Resource::AccessRule,
];

impl Resource {
    /// The route's text, with a parameter between braces.
    pub(crate) fn route(&self) -> &'static str
        ensures { result.now ≡ route_text self.now }
    {
        match self {
            Resource::SubmissionId => "/v0.10/submission_id",
            Resource::Transfer => "/v0.10/transfer",
            Resource::TaskList => "/v0.10/task_list",
            Resource::Task => "/v0.10/task/{id}",
            Resource::Successes => "/v0.10/task/{id}/successful_transfers",
            Resource::Skipped => "/v0.10/task/{id}/skipped_errors",
            Resource::Endpoint => "/v0.10/endpoint/{id}",
            Resource::AccessList => "/v0.10/endpoint/{id}/access_list",
            Resource::AccessRules => "/v0.10/endpoint/{id}/access",
            Resource::AccessRule => "/v0.10/endpoint/{id}/access/{rule}",
        }
    }
}
