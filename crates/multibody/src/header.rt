// What is by value of a model: the settings, and whether its rows are built.
use rows::integration_parameters::IntegrationParameters;

#[derive(Clone, Copy)]
pub struct Header {
    pub params: IntegrationParameters,
    pub built: bool,
}
